// Blocks by value, and the bytes of a number.
ghost use Rattle.std.specs.Prelude.{◌≡◌, length};
ghost use Rattle.rules.specs.Bytes.{bytes_of, block_size};
ghost use Rattle.blocks.specs.Made.{erased_block};

use fields::stores;

#[tactic(auto, unfolding(crate::specs::Made::erased_block))]
pub fn erased_block() -> [u8; rules::BLOCK_SIZE]
    ensures { result ≡ erased_block }
{
    [0xFF; rules::BLOCK_SIZE]
}

// A lent block, by value.
pub fn copied(block: &[u8]) -> [u8; rules::BLOCK_SIZE]
    requires { length block.now ≡ block_size }
    ensures { result ≡ block.now }
{
    let mut b = erased_block();
    stores::copy_block(&mut b, 0, block);
    b
}

// The eight bytes of a number, lowest first.
#[tactic(auto, unfolding(rules::specs::Bytes::bytes_of))]
pub fn bytes_of(v: u64) -> [u8; 8]
    ensures { result ≡ bytes_of 8 v }
{
    v.to_le_bytes()
}

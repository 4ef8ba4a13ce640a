// Little-endian fields of lent bytes, and the part of an image that is a block.
#![tactic(auto)]

ghost use Rattle.std.specs.Prelude.{◌≡◌, ◌+◌, ◌*◌, ◌^◌, ◌≤◌, ◌<◌, eqb, length};
ghost use Rattle.rules.specs.Bytes.{field, block, block_size};

pub mod bounds; // bounds and parts
pub mod stores; // numbers and bytes into lent bytes

// The field of N bytes at an offset.
pub fn number<const N: usize>(s: &[u8], at: usize) -> u64
    requires { (N ≤ 8) × (at + N ≤ length s.now) }
    ensures { (result ≡ field at N s.now) × (result < 256 ^ N) }
{
    let mut bytes = [0; 8];
    bytes[..N].copy_from_slice(&s[at..at + N]);
    u64::from_le_bytes(bytes)
}

// The 4,096 bytes at an address of an image: a part of what is lent, not a copy.
pub fn block_at(image: &[u8], at: usize) -> &[u8]
    requires { at + block_size ≤ length image.now }
    ensures { (result.now ≡ block image.now at) × (length result.now ≡ block_size) }
{
    &image[at..at + rules::BLOCK_SIZE]
}

// Blocks compared: the two copies of one, or one with erased bytes.
#![tactic(auto)]

ghost use Rattle.std.specs.Prelude.{◌≡◌, ◌+◌, ◌≤◌, eqb, length};
ghost use Rattle.rules.specs.Lists.{same, all};
ghost use Rattle.rules.specs.Bytes.{block, block_size, erased_byte};
ghost use Rattle.rules.specs.Commands.{slot_empty};

// A block is compared in stretches, with a return after each. Within a stretch there is none, so that its loop is turned
// into vector code.
const STRETCH: usize = 512;

// A byte of erased flash.
const ERASED: u8 = 0xFF;

// The blocks at two addresses are equal.
pub fn same_blocks(image: &[u8], a0: usize, a1: usize) -> bool
    requires { (a0 + block_size ≤ length image.now) × (a1 + block_size ≤ length image.now) }
    ensures { result ≡ same (block image.now a0) (block image.now a1) }
{
    same_stretches(fields::block_at(image, a0), fields::block_at(image, a1))
}

fn same_stretches(a: &[u8], b: &[u8]) -> bool
    requires { length a.now ≡ length b.now }
    ensures { result ≡ same a.now b.now }
{
    for (x, y) in a.chunks(STRETCH).zip(b.chunks(STRETCH)) {
        if !same_bytes(x, y) {
            return false;
        }
    }
    true
}

fn same_bytes(a: &[u8], b: &[u8]) -> bool
    requires { length a.now ≡ length b.now }
    ensures { result ≡ same a.now b.now }
{
    let mut same = true;
    for (x, y) in a.iter().zip(b) {
        same &= *x == *y;
    }
    same
}

// The slot at an address is empty: its first 4,096 bytes are all 0xFF.
pub fn is_erased(image: &[u8], at: usize) -> bool
    requires { at + block_size ≤ length image.now }
    ensures { result ≡ slot_empty image.now at }
{
    let block = fields::block_at(image, at);
    for stretch in block.chunks(STRETCH) {
        if !erased_bytes(stretch) {
            return false;
        }
    }
    true
}

fn erased_bytes(a: &[u8]) -> bool
    ensures { result ≡ all (λ b. eqb b erased_byte) a.now }
{
    let mut erased = true;
    for byte in a {
        erased &= *byte == ERASED;
    }
    erased
}

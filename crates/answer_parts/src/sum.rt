// The 32-bit FNV-1a of some bytes.
ghost use Rattle.std.specs.Prelude.{◌≡◌, fold};
ghost use Rattle.answer_parts.specs.Sum.{with_byte, fnv1a};

const BASIS: u32 = 2166136261;

const PRIME: u32 = 16777619;

#[tactic(auto, using(crate::proofs::Sums::sum_folded), unfolding(crate::specs::Sum::fnv1a))]
pub fn fnv1a(bytes: &[u8]) -> u64
    ensures { result ≡ fnv1a bytes.now }
{
    folded(bytes) as u64
}

fn folded(bytes: &[u8]) -> u32
    ensures { result ≡ fold with_byte 2166136261 bytes.now }
{
    bytes.iter().fold(BASIS, |sum, byte| with_byte(sum, *byte))
}

// The sum with one byte more.
fn with_byte(sum: u32, byte: u8) -> u32
    ensures { result ≡ with_byte sum byte }
{
    (sum ^ byte as u32).wrapping_mul(PRIME)
}

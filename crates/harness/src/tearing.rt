// A half-done erase by a choice of its bytes, for the programs that cut the power inside an erase.
ghost use Rattle.std.specs.Prelude.{◌≡◌, cond};
ghost use Rattle.rules.specs.Bytes.{erased_byte};
ghost use Rattle.harness.specs.Choices.{mixed, wipes, torn_inside};

// Which bytes are wiped: so many of the lowest or of the highest, one alone, all but one, those of even or of odd
// number, or some by a seed.
#[derive(Clone, Copy)]
pub enum Choice {
    Lowest(usize),
    Highest(usize),
    Alone(usize),
    AllBut(usize),
    Every(usize),
    Seeded(u64),
}

const MODULUS: u64 = 4294967296;

// Half of all bytes, without a pattern.
#[tactic(auto, unfolding(crate::specs::Choices::mixed))]
fn mixed(seed: u64, i: u64) -> u64
    ensures { result ≡ mixed seed i }
{
    let sum = (seed % MODULUS * 2654435761 + i % MODULUS) % MODULUS;
    let product = (sum ^ sum / 65536) % MODULUS * 2246822519 % MODULUS;
    (product ^ product / 8192) % 2
}

#[tactic(auto, unfolding(crate::specs::Choices::wipes))]
fn is_wiped(choice: Choice, size: usize, i: usize) -> bool
    ensures { result ≡ wipes choice size i }
{
    match choice {
        Choice::Lowest(n) => i < n,
        Choice::Highest(n) => size.saturating_sub(n) <= i,
        Choice::Alone(j) => i == j,
        Choice::AllBut(j) => i != j,
        Choice::Every(j) => i % 2 == j,
        Choice::Seeded(seed) => mixed(seed, i as u64) == 1,
    }
}

fn left_of(byte: u8, wiped: bool) -> u8
    ensures { result ≡ cond wiped erased_byte byte }
{
    if wiped { 0xFF } else { byte }
}

// An erase of so many bytes at an address that wiped those chosen. Nothing where they pass the image's end.
pub fn tear(image: &mut [u8], at: usize, size: usize, choice: Choice)
    ensures { image.new ≡ torn_inside at size choice image.old }
{
    if image.len() < size {
        return;
    }
    if image.len() - size < at {
        return;
    }
    for i in 0..size {
        image[at + i] = left_of(image[at + i], is_wiped(choice, size, i));
    }
}

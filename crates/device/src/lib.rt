// The device: a stretch of the lent image erased, or programmed byte by byte.
#![tactic(auto)]

ghost use Rattle.std.specs.Prelude.{◌≡◌, ℕ, ◌+◌, ◌≤◌, [], ◌∷◌, length};
ghost use Rattle.rules.specs.Steps.{wiped, steps, programs};

// So many bytes from an address on become 0xFF.
#[tactic(auto, unfolding(rules::specs::Steps::wiped))]
pub fn erase(image: &mut [u8], at: usize, n: usize)
    requires { at + n ≤ length image.old }
    ensures { image.new ≡ wiped at n image.old }
{
    image[at..at + n].fill(0xFF);
}

// Bytes programmed upward from an address, whatever the granule: new byte = old AND given.
pub fn program(image: &mut [u8], at: usize, given: &[u8])
    requires { at + length given.now ≤ length image.old }
    ensures { (g : ℕ) → image.new ≡ steps g (programs at given.now) image.old }
{
    for (i, byte) in given.iter().enumerate() {
        image[at + i] &= *byte;
    }
}

// The same for four bytes.
fn program_four(image: &mut [u8], at: usize, v0: u8, v1: u8, v2: u8, v3: u8)
    requires { at + 4 ≤ length image.old }
    ensures { (g : ℕ) → image.new ≡ steps g (programs at (v0 ∷ v1 ∷ v2 ∷ v3 ∷ [])) image.old }
{
    image[at] &= v0;
    image[at + 1] &= v1;
    image[at + 2] &= v2;
    image[at + 3] &= v3;
}

// And for eight, without a loop. All are read before the first is programmed, so that the compiler can join them: byte by
// byte a run of many places took twice as long.
pub fn program_eight(image: &mut [u8], at: usize, given: &[u8; 8])
    requires { at + 8 ≤ length image.old }
    ensures { (g : ℕ) → image.new ≡ steps g (programs at given.now) image.old }
{
    let [v0, v1, v2, v3, v4, v5, v6, v7] = *given;
    program_four(image, at, v0, v1, v2, v3);
    program_four(image, at + 4, v4, v5, v6, v7);
}

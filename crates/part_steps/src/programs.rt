// Bytes programmed upward from an address: of these steps, those from one on.
ghost use Rattle.std.specs.Prelude.{◌≡◌, true, ℕ, ◌+◌, ◌≤◌, length, drop};
ghost use Rattle.rules.specs.Bytes.{block_size};
ghost use Rattle.rules.specs.Steps.{steps, programs};
ghost use Rattle.part_steps.specs.Parts.{first_step};
ghost use Rattle.part_steps.specs.Inner.Windows.{highest_address, programs_inside, chosen, beyond};

use super::windows::Window;
use fields::bounds;
use rules::Step;

// Do those in a window, whatever the granule; the window beyond them.
pub fn do_range(image: &mut [u8], at: usize, given: &[u8], window: Window) -> Window
    requires { programs_inside (length image.old) at (length given.now) window.from ≡ true }
    ensures value { result ≡ beyond (length given.now) window }
    ensures by_index { (g : ℕ) → image.new
        ≡ steps g (chosen window (programs at given.now)) image.old }
{
    let size = given.len();
    let from = window.from;
    let rest = window.beyond(size);
    if size <= from {
        return rest;
    }
    let m = window.n.min(size - from);
    device::program(image, at + from, &given[from..from + m]);
    rest
}

// So many of these steps reach nothing outside an image of that length.
#[tactic(auto, unfolding(crate::specs::Inner::Windows::programs_inside))]
pub fn are_inside(len: usize, at: usize, size: usize, from: usize) -> bool
    ensures { result ≡ programs_inside len at size from }
{
    size <= from || bounds::ends_by(at as u64, size as u64, len as u64)
}

// The first of them.
pub fn next_program(at: usize, given: &[u8], from: usize) -> Option<Step>
    requires { (at ≤ highest_address + 4) × (length given.now ≤ block_size) }
    ensures { result ≡ first_step (drop from (programs at given.now)) }
{
    let byte = given.get(from)?;
    Some(Step::Program(at + from, *byte))
}

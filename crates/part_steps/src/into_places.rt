// Eight bytes into each of some places of a pointer block: of these steps, those from one on.
ghost use Rattle.std.specs.Prelude.{◌≡◌, true, ℕ, ◌+◌, ◌*◌, ◌≤◌, ◌<◌, min, length, drop};
ghost use Rattle.rules.specs.Bytes.{field};
ghost use Rattle.rules.specs.Lists.{all};
ghost use Rattle.rules.specs.Steps.{steps, programs};
ghost use Rattle.rules.specs.Cuts.{inside};
ghost use Rattle.part_steps.specs.Parts.{place_room, first_step};
ghost use Rattle.part_steps.specs.Inner.Windows.{highest_address, programs_inside, chosen, beyond};

use super::programs;
use super::windows::Window;
use rules::Step;
use std::marker::Model;

// The room for places' numbers: two bytes for each place that a pointer block may have.
pub const PLACES_SIZE: usize = 2 * rules::MOST_PLACES;

// Eight bytes into each of some places, as its steps: where the pointer block begins and where in it its places, the
// places' numbers of two bytes each, lowest byte first, of which the first `count` are meant, and the bytes.
#[derive(Drop)]
pub struct IntoPlaces<'a> {
    pub at: u32,
    pub offset: u32,
    pub places: &'a [u8; PLACES_SIZE],
    pub count: usize,
    pub value: &'a [u8; 8],
}

impl<'a> Model for IntoPlaces<'a> {
    ghost use Rattle.std.specs.Prelude.{◌≡◌, List, length};
    ghost use Rattle.rules.specs.declared.Step.{Step};
    ghost use Rattle.rules.specs.Commands.{into_places};
    ghost use Rattle.part_steps.specs.Parts.{meant};

    ghost Value = { List Step };

    ghost view = { λ p. into_places p.at p.offset p.value.now (meant p.count p.places.now) };

    ghost invariant = { λ p. length p.value.now ≡ 8 };
}

// How many steps there are into so many places.
pub fn steps_into(count: usize) -> usize
    ensures { (result ≡ 8 * min count place_room) × (result ≤ 4064) }
{
    8 * count.min(rules::MOST_PLACES)
}

// Where the place begins whose number is at an index, of the block at an address.
fn place_address(at: u32, offset: u32, places: &[u8; PLACES_SIZE], i: usize) -> usize
    requires { i < place_room }
    ensures { (result ≡ at + (offset + 8 * field (2 * i) 2 places.now)) × (result ≤ highest_address) }
{
    let place = fields::number::<2>(places, 2 * i) as usize;
    at as usize + (offset as usize + 8 * place)
}

// Do those into the place at an address, whatever the granule; the window beyond them. Mostly these are all eight.
fn do_place(image: &mut [u8], at: usize, value: &[u8; 8], window: Window) -> Window
    requires { programs_inside (length image.old) at 8 window.from ≡ true }
    ensures value { result ≡ beyond 8 window }
    ensures by_index { (g : ℕ) → image.new
        ≡ steps g (chosen window (programs at value.now)) image.old }
{
    if (window.from == 0) & (8 <= window.n) {
        device::program_eight(image, at, value);
        return window.beyond(8);
    }
    programs::do_range(image, at, value, window)
}

impl<'a> IntoPlaces<'a> {
    // How many there are.
    pub fn step_count(&self) -> usize
        ensures { (result ≡ length self.now) × (result ≤ 4064) }
    {
        steps_into(self.count)
    }

    // Do those in a window, whatever the granule.
    pub fn run(&self, image: &mut [u8], granule: usize, window: Window)
        requires { all (inside granule (length image.old)) (drop window.from self.now) ≡ true }
        ensures { (g : ℕ) → image.new ≡ steps g (chosen window self.now) image.old }
    {
        let mut rest = window;
        for i in 0..self.count.min(rules::MOST_PLACES) {
            let at = place_address(self.at, self.offset, self.places, i);
            rest = do_place(image, at, self.value, rest);
        }
    }

    // Those from one on reach nothing outside an image of that length.
    pub fn are_inside(&self, granule: usize, len: usize, from: usize) -> bool
        ensures { result ≡ all (inside granule len) (drop from self.now) }
    {
        let mut skip = from;
        for i in 0..self.count.min(rules::MOST_PLACES) {
            let at = place_address(self.at, self.offset, self.places, i);
            if !programs::are_inside(len, at, 8, skip) {
                return false;
            }
            skip = skip.saturating_sub(8);
        }
        true
    }

    // The first of those from one on.
    pub fn next(&self, from: usize) -> Option<Step>
        ensures { result ≡ first_step (drop from self.now) }
    {
        let i = from / 8;
        if self.count.min(rules::MOST_PLACES) <= i {
            return None;
        }
        let at = place_address(self.at, self.offset, self.places, i);
        let value = self.value;
        programs::next_program(at, value, from % 8)
    }
}

// A block rewritten: of these steps, those from one on.
ghost use Rattle.std.specs.Prelude.{◌≡◌, true, [], ◌∷◌, ◌≤◌, length, drop};
ghost use Rattle.rules.specs.Lists.{all};
ghost use Rattle.rules.specs.Steps.{steps};
ghost use Rattle.rules.specs.Cuts.{inside};
ghost use Rattle.rules.specs.declared.Step.TheVariants.{Erase};
ghost use Rattle.part_steps.specs.Parts.{first_step};
ghost use Rattle.part_steps.specs.Inner.Windows.{highest_address, erase_inside, rewrite_inside, chosen, beyond};

use super::programs;
use super::windows::Window;
use fields::bounds;
use rules::Step;
use std::marker::Model;

// How many steps a rewrite has: four zeros, the erase and a byte each.
pub const STEPS: usize = 5 + rules::BLOCK_SIZE;

// The bytes after the magic.
const REST_SIZE: usize = rules::BLOCK_SIZE - 4;

// A block rewritten at an address, as its steps.
#[derive(Drop)]
pub struct Rewriting<'a> {
    pub at: usize,
    pub block: &'a [u8; rules::BLOCK_SIZE],
}

impl<'a> Model for Rewriting<'a> {
    ghost use Rattle.std.specs.Prelude.{◌≡◌, ◌≤◌, List, length};
    ghost use Rattle.rules.specs.Bytes.{block_size};
    ghost use Rattle.rules.specs.declared.Step.{Step};
    ghost use Rattle.rules.specs.Steps.{rewrite};
    ghost use Rattle.part_steps.specs.Inner.Windows.{highest_address};

    ghost Value = { List Step };

    ghost view = { λ r. rewrite r.at r.block.now };

    ghost invariant = { λ r. (length r.block.now ≡ block_size) × (r.at ≤ highest_address) };
}

fn do_erase(image: &mut [u8], at: usize, granule: usize, window: Window) -> Window
    requires { erase_inside granule (length image.old) at window.from ≡ true }
    ensures value { result ≡ beyond 1 window }
    ensures image_after { image.new ≡ steps granule (chosen window (Erase at ∷ [])) image.old }
{
    let rest = window.beyond(1);
    if (0 < window.from) | (window.n == 0) {
        return rest;
    }
    device::erase(image, at, granule);
    rest
}

#[tactic(auto, unfolding(crate::specs::Inner::Windows::erase_inside))]
fn erase_is_inside(granule: usize, len: usize, at: usize, from: usize) -> bool
    ensures { result ≡ erase_inside granule len at from }
{
    1 <= from || bounds::ends_by(at as u64, granule as u64, len as u64)
}

// The steps of a rewrite from one on reach nothing outside an image of that length.
#[tactic(auto, unfolding(crate::specs::Inner::Windows::rewrite_inside))]
pub fn is_inside(granule: usize, len: usize, at: usize, from: usize) -> bool
    requires { at ≤ highest_address }
    ensures { result ≡ rewrite_inside granule len at from }
{
    let after = from.saturating_sub(4);
    let skip = after.saturating_sub(1);
    programs::are_inside(len, at, 4, from)
        && erase_is_inside(granule, len, at, after)
        && programs::are_inside(len, at + 4, REST_SIZE, skip)
        && programs::are_inside(len, at, 4, skip.saturating_sub(REST_SIZE))
}

impl<'a> Rewriting<'a> {
    // How many there are.
    pub fn step_count(&self) -> usize
        ensures { (result ≡ length self.now) × (result ≡ 4101) }
    {
        let _ = &self.block;
        STEPS
    }

    // Do those in a window: zeros over the magic, the erase, the bytes after the magic, the magic.
    pub fn run(&self, image: &mut [u8], granule: usize, window: Window)
        requires { all (inside granule (length image.old)) (drop window.from self.now) ≡ true }
        ensures { image.new ≡ steps granule (chosen window self.now) image.old }
    {
        let at = self.at;
        let block = self.block;
        let after = programs::do_range(image, at, &[0; 4], window);
        let rest = do_erase(image, at, granule, after);
        let last = programs::do_range(image, at + 4, &block[4..], rest);
        programs::do_range(image, at, &block[..4], last);
    }

    // Those from one on reach nothing outside an image of that length.
    pub fn are_inside(&self, granule: usize, len: usize, from: usize) -> bool
        ensures { result ≡ all (inside granule len) (drop from self.now) }
    {
        is_inside(granule, len, self.at, from)
    }

    // The first of those from one on.
    pub fn next(&self, from: usize) -> Option<Step>
        ensures { result ≡ first_step (drop from self.now) }
    {
        let at = self.at;
        let block = self.block;
        if from < 4 {
            return Some(Step::Program(at + from, 0));
        }
        if from == 4 {
            return Some(Step::Erase(at));
        }
        let skip = from - 5;
        if skip < REST_SIZE {
            return programs::next_program(at + 4, &block[4..], skip);
        }
        programs::next_program(at, &block[..4], skip - REST_SIZE)
    }
}

// The parts of a job with what their steps use: of the steps listed those from one on, whether they stay inside an image,
// done, and which comes next.
ghost use Rattle.std.specs.Prelude.{◌≡◌, true, ◌≤◌, length, drop};
ghost use Rattle.rules.specs.Lists.{all};
ghost use Rattle.rules.specs.Steps.{steps};
ghost use Rattle.rules.specs.Cuts.{inside};
ghost use Rattle.part_steps.specs.Parts.{meant, first_step};
ghost use Rattle.part_steps.specs.Inner.Windows.{chosen};
ghost use Rattle.job_parts.specs.Listed.{part, listed};
ghost use Rattle.job_parts.specs.Inner.Lent.{steps_in};

use super::{Kind, Plan};
use part_steps::into_places::{IntoPlaces, PLACES_SIZE};
use part_steps::rewriting::Rewriting;
use part_steps::windows::Window;
use rules::Step;
use std::marker::Model;

// One of the two.
#[derive(Drop)]
pub enum Part<'a> {
    Nothing,
    Rewrite(Rewriting<'a>),
    Places(IntoPlaces<'a>),
}

// The part of a plan that has this kind and address, its arrays lent.
#[tactic(auto, unfolding(crate::specs::Listed::part))]
fn part_of<'a>(
    plan: Plan,
    kind: Kind,
    at: u32,
    block: &'a [u8; rules::BLOCK_SIZE],
    places: &'a [u8; PLACES_SIZE],
    value: &'a [u8; 8],
) -> Part<'a>
    ensures { steps_in result ≡ part kind at plan.offset block.now (meant plan.count places.now) value.now }
{
    match kind {
        Kind::Nothing => Part::Nothing,
        Kind::Rewrite => Part::Rewrite(Rewriting {
            at: at as usize,
            block,
        }),
        Kind::Places => Part::Places(IntoPlaces {
            at,
            offset: plan.offset,
            places,
            count: plan.count,
            value,
        }),
    }
}

impl<'a> Part<'a> {
    fn step_count(&self) -> usize
        ensures { (result ≡ length (steps_in self.now)) × (result ≤ 4101) }
    {
        match self {
            Part::Nothing => 0,
            Part::Rewrite(rewriting) => rewriting.step_count(),
            Part::Places(places) => places.step_count(),
        }
    }

    fn are_inside(&self, granule: usize, len: usize, from: usize) -> bool
        ensures { result ≡ all (inside granule len) (drop from (steps_in self.now)) }
    {
        match self {
            Part::Nothing => true,
            Part::Rewrite(rewriting) => rewriting.are_inside(granule, len, from),
            Part::Places(places) => places.are_inside(granule, len, from),
        }
    }

    fn run(&self, image: &mut [u8], granule: usize, window: Window)
        requires { all (inside granule (length image.old)) (drop window.from (steps_in self.now)) ≡ true }
        ensures { image.new ≡ steps granule (chosen window (steps_in self.now)) image.old }
    {
        match self {
            Part::Nothing => {}
            Part::Rewrite(rewriting) => rewriting.run(image, granule, window),
            Part::Places(places) => places.run(image, granule, window),
        }
    }

    fn next(&self, from: usize) -> Option<Step>
        ensures { result ≡ first_step (drop from (steps_in self.now)) }
    {
        match self {
            Part::Nothing => None,
            Part::Rewrite(rewriting) => rewriting.next(from),
            Part::Places(places) => places.next(from),
        }
    }
}

// Both, as the steps of the first and then those of the second.
#[derive(Drop)]
pub struct Parts<'a> {
    pub first: Part<'a>,
    pub second: Part<'a>,
}

impl<'a> Model for Parts<'a> {
    ghost use Rattle.std.specs.Prelude.{List, ◌++◌};
    ghost use Rattle.rules.specs.declared.Step.{Step};

    ghost Value = { List Step };

    ghost use Rattle.job_parts.specs.Inner.Lent.{steps_in};

    ghost view = { λ p. steps_in p.first ++ steps_in p.second };
}

// Both parts of a plan, its arrays lent.
#[tactic(auto, unfolding(crate::specs::Listed::listed))]
pub fn parts_of<'a>(
    plan: Plan,
    first: &'a [u8; rules::BLOCK_SIZE],
    second: &'a [u8; rules::BLOCK_SIZE],
    places: &'a [u8; PLACES_SIZE],
    value: &'a [u8; 8],
) -> Parts<'a>
    ensures { result ≡ listed plan first.now second.now places.now value.now }
{
    Parts {
        first: part_of(plan, plan.first, plan.at, first, places, value),
        second: part_of(plan, plan.second, plan.after, second, places, value),
    }
}

impl<'a> Parts<'a> {
    // Those from one on reach nothing outside an image of that length.
    pub fn are_inside(&self, granule: usize, len: usize, from: usize) -> bool
        ensures { result ≡ all (inside granule len) (drop from self.now) }
    {
        let rest = from.saturating_sub(self.first.step_count());
        self.first.are_inside(granule, len, from) & self.second.are_inside(granule, len, rest)
    }

    // Do those in a window.
    pub fn run(&self, image: &mut [u8], granule: usize, window: Window)
        requires { all (inside granule (length image.old)) (drop window.from self.now) ≡ true }
        ensures { image.new ≡ steps granule (chosen window self.now) image.old }
    {
        self.first.run(image, granule, window);
        let rest = window.beyond(self.first.step_count());
        self.second.run(image, granule, rest);
    }

    // The first of those from one on.
    pub fn next(&self, from: usize) -> Option<Step>
        ensures { result ≡ first_step (drop from self.now) }
    {
        let size = self.first.step_count();
        if from < size {
            return self.first.next(from);
        }
        self.second.next(from - size)
    }
}

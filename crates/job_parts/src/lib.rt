// The two parts of a job: how many steps are listed, and of these, those from one on: whether they stay inside an image,
// done, and which comes next.
#![tactic(auto)]

ghost use Rattle.std.specs.Prelude.{◌≡◌, ◌≤◌, min};
ghost use Rattle.part_steps.specs.Parts.{place_room};
ghost use Rattle.job_parts.specs.Inner.Parts.{part_length, listed_length};

pub mod parts; // the steps of both parts

use part_steps::{into_places, rewriting};

// What a part of a job does at its address.
#[derive(Clone, Copy, PartialEq, Eq, Debug)]
pub enum Kind {
    Nothing,
    Rewrite,
    Places,
}

// A job without its arrays: image length and granule at the start, where the places of a pointer block begin, and
// two parts, each with its kind and its address. Of the places' numbers the first `count` are meant.
#[derive(Clone, Copy, PartialEq, Eq, Debug)]
pub struct Plan {
    pub len: usize,
    pub granule: usize,
    pub offset: u32,
    pub first: Kind,
    pub at: u32,
    pub second: Kind,
    pub after: u32,
    pub count: usize,
}

// How many steps are listed.
#[tactic(auto, unfolding(crate::specs::Inner::Parts::listed_length))]
pub fn step_count(plan: Plan) -> usize
    ensures { (result ≡ listed_length plan) × (result ≤ 8202) }
{
    part_length(plan.first, plan.count) + part_length(plan.second, plan.count)
}

#[tactic(auto, unfolding(crate::specs::Inner::Parts::part_length))]
fn part_length(kind: Kind, count: usize) -> usize
    ensures { (result ≡ part_length kind (min count place_room)) × (result ≤ 4101) }
{
    match kind {
        Kind::Nothing => 0,
        Kind::Rewrite => rewriting::STEPS,
        Kind::Places => into_places::steps_into(count),
    }
}

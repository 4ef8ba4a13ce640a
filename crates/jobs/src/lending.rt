// A job whose blocks, places' numbers and bytes are lent, so that none is copied.
ghost use Rattle.std.specs.Prelude.{◌≡◌};
ghost use Rattle.job_parts.specs.Listed.{listed};
ghost use Rattle.jobs.specs.Jobs.{did_by_run, image_after_run, steps_left, next_of, counted};
ghost use Rattle.jobs.specs.Inner.Countable.{Countable};

use job_parts::parts::Parts;
use job_parts::{Plan, parts};
use part_steps::into_places::PLACES_SIZE;
use part_steps::windows::Window;
use rules::{Refusal, Step};
use std::marker::Model;

// As the job itself.
#[derive(Drop)]
pub struct LentJob<'a> {
    pub plan: Plan,
    pub done: usize,
    pub first: &'a [u8; rules::BLOCK_SIZE],
    pub second: &'a [u8; rules::BLOCK_SIZE],
    pub places: &'a [u8; PLACES_SIZE],
    pub value: &'a [u8; 8],
}

impl<'a> Model for LentJob<'a> {
    ghost use Rattle.jobs.specs.declared.Job.{Job};
    ghost use Rattle.jobs.specs.Jobs.{lent};
    ghost use Rattle.jobs.specs.Inner.Countable.{Arrays};

    ghost Value = { Job };

    ghost view = { λ j. lent j.plan j.done j.first.now j.second.now j.places.now j.value.now };

    ghost invariant = { λ j. Arrays (lent j.plan j.done j.first.now j.second.now j.places.now j.value.now) };
}

impl<'a> LentJob<'a> {
    fn parts(&self) -> Parts<'a>
        ensures { result ≡ listed self.now.plan self.now.first self.now.second self.now.places self.now.value }
    {
        parts::parts_of(self.plan, self.first, self.second, self.places, self.value)
    }

    // Does as many steps as the budget says, or all that remain: how many. They are not counted.
    pub fn run(&self, image: &mut [u8], budget: usize) -> Result<usize, Refusal>
        ensures { ((result ≡ did_by_run self.now budget image.old) × (Countable self.now.done result))
            × (image.new ≡ image_after_run self.now budget image.old) }
    {
        let left = super::remaining_of(self.plan, self.done);
        if left == 0 {
            return Err(Refusal::NoStepsLeft);
        }
        let granule = self.plan.granule;
        let parts = self.parts();
        if image.len() != self.plan.len || !parts.are_inside(granule, image.len(), self.done) {
            return Err(Refusal::OutsideImage);
        }
        let window = Window {
            from: self.done,
            n: budget,
        };
        parts.run(image, granule, window);
        Ok(budget.min(left))
    }

    // How many steps remain.
    pub fn remaining(&self) -> usize
        ensures { result ≡ steps_left self.now }
    {
        super::remaining_of(self.plan, self.done)
    }

    // How many of n steps that were carried out elsewhere are counted: so many, or all that remain.
    pub fn count(&self, n: usize) -> Result<usize, Refusal>
        ensures { (result ≡ counted (steps_left self.now) n) × (Countable self.now.done result) }
    {
        super::counted_of(self.plan, self.done, n)
    }

    // Which step comes next.
    pub fn next_step(&self) -> Option<Step>
        ensures { result ≡ next_of self.now }
    {
        self.parts().next(self.done)
    }
}

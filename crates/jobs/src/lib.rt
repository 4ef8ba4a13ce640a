// A job: the list of steps of a command, by value. Running it, what remains of it, which step comes next, steps that
// were carried out elsewhere.
#![tactic(auto)]

ghost use Rattle.std.specs.Prelude.{◌≡◌, ◌-◌};
ghost use Rattle.jobs.specs.Jobs.{RanBy, after_call, steps_left, next_of, counted, counting};
ghost use Rattle.job_parts.specs.Inner.Parts.{listed_length};
ghost use Rattle.jobs.specs.Inner.Countable.{Countable};

pub mod lending; // a job whose arrays are lent

use job_parts::Plan;
use lending::LentJob;
pub use part_steps::into_places::PLACES_SIZE; // the room for places' numbers
use rules::{Refusal, Step};

// A job: its plan, how many steps are done, a block for each part, the places' numbers of two bytes each, lowest byte
// first, and the bytes for the places.
#[derive(Clone, Copy)]
pub struct Job {
    pub plan: Plan,
    pub done: usize,
    pub first: [u8; rules::BLOCK_SIZE],
    pub second: [u8; rules::BLOCK_SIZE],
    pub places: [u8; PLACES_SIZE],
    pub value: [u8; 8],
}

impl Job {
    // The same, its arrays lent, so that none is copied.
    pub fn lent(&self) -> LentJob<'_>
        ensures { result ≡ self.now }
    {
        LentJob {
            plan: self.plan,
            done: self.done,
            first: &self.first,
            second: &self.second,
            places: &self.places,
            value: &self.value,
        }
    }

    // Does as many steps as the budget says, or all that remain: how many.
    pub fn run(&mut self, image: &mut [u8], budget: usize) -> Result<usize, Refusal>
        ensures { RanBy self.old budget image.old (after_call self.new result) image.new }
    {
        let n = self.lent().run(image, budget)?;
        self.done += n;
        Ok(n)
    }

    // How many steps remain.
    pub fn remaining(&self) -> usize
        ensures { result ≡ steps_left self.now }
    {
        self.lent().remaining()
    }

    // Which step comes next.
    pub fn next_step(&self) -> Option<Step>
        ensures { result ≡ next_of self.now }
    {
        self.lent().next_step()
    }

    // Counts steps that were carried out elsewhere, in their order: so many, or all that remain.
    pub fn advance(&mut self, n: usize) -> Result<usize, Refusal>
        ensures { after_call self.new result ≡ counting self.old n }
    {
        let counted = self.lent().count(n)?;
        self.done += counted;
        Ok(counted)
    }
}

// How many steps remain of a job with this plan, of which so many are done.
pub fn remaining_of(plan: Plan, done: usize) -> usize
    ensures { result ≡ listed_length plan - done }
{
    job_parts::step_count(plan).saturating_sub(done)
}

// How many of n steps are counted of such a job.
pub fn counted_of(plan: Plan, done: usize, n: usize) -> Result<usize, Refusal>
    ensures { (result ≡ counted (listed_length plan - done) n) × (Countable done result) }
{
    let left = remaining_of(plan, done);
    if left == 0 {
        return Err(Refusal::NoStepsLeft);
    }
    Ok(n.min(left))
}

// A job in a lent buffer run, its steps counted and told, with the answer as numbers.
#![tactic(auto)]

ghost use Rattle.runs_for_c.specs.Counted.{Counted};
ghost use Rattle.runs_for_c.specs.Ran.{lent, running, RanAs};
ghost use Rattle.runs_for_c.specs.Told.{RemainingTold, NextTold};

use codes::answers::told;
use codes::steps::step_code;
use job_fields::job_in;

// Does as many steps as the budget says, or all that remain, and tells how many.
pub fn run(job: &mut [u8], image: &mut [u8], budget: usize, done: &mut usize) -> u8
    ensures { RanAs result budget (lent job.old image.old done.old)
        (lent job.new image.new done.new)
        (running job.old image.old) }
{
    told(held_jobs::run(job, image, budget), done)
}

// How many steps remain.
pub fn remaining(job: &[u8], count: &mut usize) -> u8
    ensures { RemainingTold job.now result count.old count.new }
{
    match job_in(job) {
        Err(why) => why.number(),
        Ok(held) => {
            *count = held.remaining();
            0
        }
    }
}

// Which step comes next: 0 for none, 1 for a byte programmed at an address, 2 for a granule erased there.
pub fn next_step(job: &[u8], kind: &mut u8, address: &mut usize, byte: &mut u8) -> u8
    ensures { NextTold job.now result
        kind.old kind.new
        address.old address.new
        byte.old byte.new }
{
    match job_in(job) {
        Err(why) => why.number(),
        Ok(held) => {
            let code = step_code(held.next_step());
            *kind = code.kind;
            *address = code.address;
            *byte = code.byte;
            0
        }
    }
}

// Counts steps that were carried out elsewhere: so many, or all that remain; tells how many.
pub fn advance(job: &mut [u8], steps: usize, count: &mut usize) -> u8
    ensures { Counted steps result job.old job.new count.old count.new }
{
    told(held_jobs::advance(job, steps), count)
}

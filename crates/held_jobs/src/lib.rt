// The job that lent bytes hold: its run, steps carried out elsewhere, what remains of it. Of the bytes only the number of
// steps done changes.
#![tactic(auto)]

ghost use Rattle.std.specs.Prelude.{◌≡◌, true, ◌-◌, ◌≤◌, length};
ghost use Rattle.rules.specs.Bytes.{field};
ghost use Rattle.rules.specs.Answers.{given};
ghost use Rattle.jobs.specs.Jobs.{advanced, steps_left, next_of};
ghost use Rattle.jobs.specs.Inner.Countable.{most_steps};
ghost use Rattle.job_bytes.specs.Form.{job_size, done_at, job_from, holds_job, decoded};
ghost use Rattle.held_jobs.specs.Running.{bytes_after, RanOver, CountedOver};

use fields::stores;
use job_bytes::DONE_AT;
use job_fields::{job_from, job_in};
use rules::{Refusal, Step};

// Runs the job where it lies.
pub fn run(job: &mut [u8], image: &mut [u8], budget: usize) -> Result<usize, Refusal>
    ensures { RanOver budget job.old image.old job.new image.new result (decoded job.old) }
{
    let n = job_in(job)?.run(image, budget)?;
    raise_done(job, n);
    Ok(n)
}

// Counts steps of it that were carried out elsewhere.
pub fn advance(job: &mut [u8], n: usize) -> Result<usize, Refusal>
    ensures { CountedOver n job.old job.new result (decoded job.old) }
{
    let counted = job_in(job)?.count(n)?;
    raise_done(job, counted);
    Ok(counted)
}

// So many steps more are done.
fn raise_done(job: &mut [u8], n: usize)
    requires { (holds_job job.old ≡ true) × (n ≤ most_steps - field done_at 8 job.old) }
    ensures { (job.new ≡ bytes_after job.old (given n))
        × (decoded job.new ≡ given (advanced (job_from job.old) n)) }
{
    let done = fields::number::<8>(job, DONE_AT);
    stores::store::<8>(job, DONE_AT, done + n as u64);
}

// How many steps remain of the job, a kind that is none of the three read as the third.
pub fn remaining(bytes: &[u8]) -> usize
    requires { length bytes.now ≡ job_size }
    ensures { result ≡ steps_left (job_from bytes.now) }
{
    job_from(bytes).remaining()
}

// Which step of it comes next.
pub fn next_step(bytes: &[u8]) -> Option<Step>
    requires { length bytes.now ≡ job_size }
    ensures { result ≡ next_of (job_from bytes.now) }
{
    job_from(bytes).next_step()
}

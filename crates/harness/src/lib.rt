// A command on an image in memory, run to its end or cut, for the programs that try the commands on real bytes.
#![tactic(auto)]

pub mod tearing; // a half-done erase

ghost use Rattle.std.specs.Prelude.{◌≡◌};
ghost use Rattle.rules.specs.Commands.{start};
ghost use Rattle.jobs.specs.Jobs.{steps_left};
ghost use Rattle.commands.specs.Begins.{command_of, start_answer};
ghost use Rattle.book_entries.specs.Tables.{new_name};
ghost use Rattle.harness.specs.Finished.{finished, left_finished, done_by, left_by, done_begun, left_begun};

use commands::Command;
use jobs::Job;
use rules::{Refusal, Setting};

// Starts a command; every rename is to the same name.
pub fn begin(image: &[u8], setting: Setting, command: Command) -> Result<Job, Refusal>
    ensures { result ≡ start_answer setting image.now (command_of command new_name) }
{
    commands::start(image, setting, command, &book_entries::new_name())
}

// All the steps of a job in one run, and none where none remains.
fn run_job(image: &mut [u8], mut job: Job) -> Result<usize, Refusal>
    ensures { (result ≡ done_by (steps_left job) job image.old)
        × (image.new ≡ left_by (steps_left job) job image.old) }
{
    let left = job.remaining();
    if left == 0 {
        return Ok(0);
    }
    job.run(image, left)
}

// All steps of a start: how many were done, or a refusal.
#[tactic(auto, unfolding(crate::specs::Finished::done_begun, crate::specs::Finished::left_begun))]
pub fn run_begun(image: &mut [u8], begun: Result<Job, Refusal>) -> Result<usize, Refusal>
    ensures { (result ≡ done_begun begun image.old) × (image.new ≡ left_begun begun image.old) }
{
    run_job(image, begun?)
}

// Starts a command and does all its steps.
pub fn finish(image: &mut [u8], setting: Setting, command: Command) -> Result<usize, Refusal>
    ensures { (result ≡ finished (start setting image.old (command_of command new_name)))
        × (image.new
        ≡ left_finished setting.granule image.old
        (start setting image.old (command_of command new_name))) }
{
    run_begun(image, begin(image, setting, command))
}

// Any command carried out by a function: started, and its job run twice. Its contract says that these calls are as the
// theorem of `joined` asks, so the contracts of `start`, of `Job::run` and of the readers give what it assumes.
#![tactic(auto)]

ghost use Rattle.commands.specs.Begins.{command_of};
ghost use Rattle.jobs.specs.Jobs.{after_call};
ghost use Rattle.carried.specs.Carrying.{RanTwice, CarriedTwice, ReadOutBy};

use commands::Command;
use jobs::Job;
use rules::{Refusal, Setting};

// Two runs of a job, the second with the job that the first left.
pub fn run_twice(
    job: &mut Job,
    image: &mut [u8],
    first: usize,
    second: usize,
) -> Result<usize, Refusal>
    ensures { RanTwice job.old image.old first second (after_call job.new result) image.new }
{
    let _ = job.run(image, first);
    job.run(image, second)
}

// Any command started, and two runs of its job: the job then, and what the second answered; or the start's refusal.
pub fn carry_out(
    image: &mut [u8],
    setting: Setting,
    command: Command,
    name: &[u8],
    first: usize,
    second: usize,
) -> Result<(Job, Result<usize, Refusal>), Refusal>
    ensures { CarriedTwice setting (command_of command name.now) image.old first second
        result image.new }
{
    let mut job = commands::start(image, setting, command, name)?;
    let did = run_twice(&mut job, image, first, second);
    Ok((job, did))
}

// The two readers asked on one flash.
pub fn read_out(image: &[u8], setting: Setting, row: &mut [u32]) -> Result<usize, Refusal>
    ensures { ReadOutBy setting image.now result row.old row.new }
{
    let _ = reading::table_read(image, setting);
    reading::order_list(image, setting, row)
}

// Any command carried out by the functions for C: started into a lent buffer and, unless refused, run twice. The
// contract says that these calls are as the theorem of `joined_for_c` asks, so the contracts of `delunkpawi_*` give what
// it assumes.
#![tactic(auto)]

ghost use Rattle.std.specs.Prelude.{◌≡◌, length};
ghost use Rattle.commands.specs.Begins.{command_of, start_answer};
ghost use Rattle.job_bytes.specs.Form.{job_size};
ghost use Rattle.handing.specs.Begun.{handed, started_into};
ghost use Rattle.runs_for_c.specs.Ran.{lent};
ghost use Rattle.carried_for_c.specs.Carrying.{RanIfStarted, CarriedTwiceForC, OrderTold};

use commands::Command;
use rules::Setting;

// Two runs of a job that was started; none where the start was refused.
pub fn run_if_started(
    number: u8,
    job: &mut [u8],
    image: &mut [u8],
    first: usize,
    second: usize,
    done: &mut usize,
)
    ensures { RanIfStarted number (lent job.old image.old done.old) first second
        (lent job.new image.new done.new) }
{
    if number != 0 {
        return;
    }
    let _ = linked::runs::delunkpawi_run(job, image, first, done);
    let _ = linked::runs::delunkpawi_run(job, image, second, done);
}

// Any command by its function for C; the name is a rename's or a create's.
#[tactic(auto, unfolding(commands::specs::Begins::command_of))]
pub fn begin(image: &[u8], setting: Setting, command: Command, name: &[u8], job: &mut [u8]) -> u8
    ensures { handed result job.new
        ≡ started_into job.old
        (start_answer setting image.now (command_of command name.now)) }
{
    let granule = setting.granule;
    let spt0 = setting.spt0;
    let spt1 = setting.spt1;
    match command {
        Command::Enable(slot) => linked::starts::delunkpawi_enable(
            image, granule, spt0, spt1, slot.0, job,
        ),
        Command::Disable(slot) => linked::starts::delunkpawi_disable(
            image, granule, spt0, spt1, slot.0, job,
        ),
        Command::Rename(slot) => linked::starts::delunkpawi_rename(
            image, granule, spt0, spt1, slot.0, name, job,
        ),
        Command::Create(length) => linked::starts::delunkpawi_create(
            image, granule, spt0, spt1, name, length, job,
        ),
        Command::Delete(slot) => linked::starts::delunkpawi_delete(
            image, granule, spt0, spt1, slot.0, job,
        ),
        Command::Repair => linked::starts::delunkpawi_repair(image, granule, spt0, spt1, job),
    }
}

// Any command started and, unless refused, run twice; the number is the start's.
pub fn carry_out(
    image: &mut [u8],
    setting: Setting,
    command: Command,
    name: &[u8],
    job: &mut [u8],
    first: usize,
    second: usize,
    done: &mut usize,
) -> u8
    requires { length job.old ≡ job_size }
    ensures { CarriedTwiceForC setting (command_of command name.now) result
        (lent job.old image.old done.old) first second
        (lent job.new image.new done.new) }
{
    let number = begin(image, setting, command, name, job);
    run_if_started(number, job, image, first, second, done);
    number
}

// The order asked for: what is returned, written and counted is the reading's.
pub fn read_order(image: &[u8], setting: Setting, row: &mut [u32], count: &mut usize) -> u8
    ensures { OrderTold setting image.now result row.old row.new
        count.old count.new }
{
    linked::reads::delunkpawi_order(
        image,
        setting.granule,
        setting.spt0,
        setting.spt1,
        row,
        count,
    )
}

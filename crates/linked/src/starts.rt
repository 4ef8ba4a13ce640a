// A job started: the steps of a command as bytes in the buffer lent for them.
ghost use Rattle.std.specs.Prelude.{◌≡◌};
ghost use Rattle.rules.specs.Numbers.{setting};
ghost use Rattle.rules.specs.Commands.{enable, disable, rename, create, delete, repair};
ghost use Rattle.commands.specs.Begins.{start_answer};
ghost use Rattle.job_bytes.specs.Form.{job_size};
ghost use Rattle.handing.specs.Begun.{handed, started_into};

use commands::Command;
use rules::SlotNo;

// The length of a buffer for a job.
pub fn delunkpawi_job_size() -> usize
    ensures { result ≡ job_size }
{
    job_bytes::JOB_SIZE
}

// Enable a slot: it comes first in the boot order.
#[tactic(auto, unfolding(commands::specs::Begins::command_of))]
pub fn delunkpawi_enable(
    image: &[u8],
    granule: usize,
    spt0: usize,
    spt1: usize,
    slot: u32,
    job: &mut [u8],
) -> u8
    ensures { handed result job.new
        ≡ started_into job.old (start_answer (setting granule spt0 spt1) image.now (enable slot)) }
{
    let enable = Command::Enable(SlotNo(slot));
    handing::start_into(image, granule, spt0, spt1, enable, b"", job)
}

// Disable a slot: it leaves the boot order.
#[tactic(auto, unfolding(commands::specs::Begins::command_of))]
pub fn delunkpawi_disable(
    image: &[u8],
    granule: usize,
    spt0: usize,
    spt1: usize,
    slot: u32,
    job: &mut [u8],
) -> u8
    ensures { handed result job.new
        ≡ started_into job.old (start_answer (setting granule spt0 spt1) image.now (disable slot)) }
{
    let disable = Command::Disable(SlotNo(slot));
    handing::start_into(image, granule, spt0, spt1, disable, b"", job)
}

// Rename a slot.
#[tactic(auto, unfolding(commands::specs::Begins::command_of))]
pub fn delunkpawi_rename(
    image: &[u8],
    granule: usize,
    spt0: usize,
    spt1: usize,
    slot: u32,
    name: &[u8],
    job: &mut [u8],
) -> u8
    ensures { handed result job.new
        ≡ started_into job.old
        (start_answer (setting granule spt0 spt1) image.now (rename slot name.now)) }
{
    let rename = Command::Rename(SlotNo(slot));
    handing::start_into(image, granule, spt0, spt1, rename, name, job)
}

// Create a slot of a length: it comes last in the table, at the lowest start that is free and that no place holds.
#[tactic(auto, unfolding(commands::specs::Begins::command_of))]
pub fn delunkpawi_create(
    image: &[u8],
    granule: usize,
    spt0: usize,
    spt1: usize,
    name: &[u8],
    length: u32,
    job: &mut [u8],
) -> u8
    ensures { handed result job.new
        ≡ started_into job.old
        (start_answer (setting granule spt0 spt1) image.now (create name.now length)) }
{
    let create = Command::Create(length);
    handing::start_into(image, granule, spt0, spt1, create, name, job)
}

// Delete a slot that is not in the boot order: the slots after it are one number lower.
#[tactic(auto, unfolding(commands::specs::Begins::command_of))]
pub fn delunkpawi_delete(
    image: &[u8],
    granule: usize,
    spt0: usize,
    spt1: usize,
    slot: u32,
    job: &mut [u8],
) -> u8
    ensures { handed result job.new
        ≡ started_into job.old (start_answer (setting granule spt0 spt1) image.now (delete slot)) }
{
    let delete = Command::Delete(SlotNo(slot));
    handing::start_into(image, granule, spt0, spt1, delete, b"", job)
}

// Repair: where a pair disagrees, the copy not read becomes the copy read.
#[tactic(auto, unfolding(commands::specs::Begins::command_of))]
pub fn delunkpawi_repair(
    image: &[u8],
    granule: usize,
    spt0: usize,
    spt1: usize,
    job: &mut [u8],
) -> u8
    ensures { handed result job.new
        ≡ started_into job.old (start_answer (setting granule spt0 spt1) image.now repair) }
{
    handing::start_into(image, granule, spt0, spt1, Command::Repair, b"", job)
}

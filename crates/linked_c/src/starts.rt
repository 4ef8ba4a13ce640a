// A job started: the steps of a command as bytes in the buffer lent for them.
ghost use Rattle.std.specs.Prelude.{◌≡◌};
ghost use Rattle.rules.specs.Numbers.{setting};
ghost use Rattle.rules.specs.Commands.{enable, disable, rename, create, delete, repair};
ghost use Rattle.commands.specs.Begins.{start_answer};
ghost use Rattle.job_bytes.specs.Form.{job_size};
ghost use Rattle.handing.specs.Begun.{handed, started_into};

// The length of a buffer for a job.
#[unsafe(no_mangle)]
pub extern "C" fn delunkpawi_job_size() -> usize
    ensures { result ≡ job_size }
{
    linked::starts::delunkpawi_job_size()
}

// Enable a slot: it comes first in the boot order.
#[unsafe(no_mangle)]
pub extern "C" fn delunkpawi_enable(
    image: &[u8],
    granule: usize,
    spt0: usize,
    spt1: usize,
    slot: u32,
    job: &mut [u8],
) -> u8
    ensures { handed result job.new
        ≡ started_into job.old (start_answer (setting granule spt0 spt1) image.now (enable slot)) }
{
    linked::starts::delunkpawi_enable(image, granule, spt0, spt1, slot, job)
}

// Disable a slot: it leaves the boot order.
#[unsafe(no_mangle)]
pub extern "C" fn delunkpawi_disable(
    image: &[u8],
    granule: usize,
    spt0: usize,
    spt1: usize,
    slot: u32,
    job: &mut [u8],
) -> u8
    ensures { handed result job.new
        ≡ started_into job.old (start_answer (setting granule spt0 spt1) image.now (disable slot)) }
{
    linked::starts::delunkpawi_disable(image, granule, spt0, spt1, slot, job)
}

// Rename a slot.
#[unsafe(no_mangle)]
pub extern "C" fn delunkpawi_rename(
    image: &[u8],
    granule: usize,
    spt0: usize,
    spt1: usize,
    slot: u32,
    name: &[u8],
    job: &mut [u8],
) -> u8
    ensures { handed result job.new
        ≡ started_into job.old
        (start_answer (setting granule spt0 spt1) image.now (rename slot name.now)) }
{
    linked::starts::delunkpawi_rename(image, granule, spt0, spt1, slot, name, job)
}

// Create a slot of a length: it comes last in the table, at the lowest start that is free and that no place holds.
#[unsafe(no_mangle)]
pub extern "C" fn delunkpawi_create(
    image: &[u8],
    granule: usize,
    spt0: usize,
    spt1: usize,
    name: &[u8],
    length: u32,
    job: &mut [u8],
) -> u8
    ensures { handed result job.new
        ≡ started_into job.old
        (start_answer (setting granule spt0 spt1) image.now (create name.now length)) }
{
    linked::starts::delunkpawi_create(image, granule, spt0, spt1, name, length, job)
}

// Delete a slot that is not in the boot order: the slots after it are one number lower.
#[unsafe(no_mangle)]
pub extern "C" fn delunkpawi_delete(
    image: &[u8],
    granule: usize,
    spt0: usize,
    spt1: usize,
    slot: u32,
    job: &mut [u8],
) -> u8
    ensures { handed result job.new
        ≡ started_into job.old (start_answer (setting granule spt0 spt1) image.now (delete slot)) }
{
    linked::starts::delunkpawi_delete(image, granule, spt0, spt1, slot, job)
}

// Repair: where a pair disagrees, the copy not read becomes the copy read.
#[unsafe(no_mangle)]
pub extern "C" fn delunkpawi_repair(
    image: &[u8],
    granule: usize,
    spt0: usize,
    spt1: usize,
    job: &mut [u8],
) -> u8
    ensures { handed result job.new
        ≡ started_into job.old (start_answer (setting granule spt0 spt1) image.now repair) }
{
    linked::starts::delunkpawi_repair(image, granule, spt0, spt1, job)
}

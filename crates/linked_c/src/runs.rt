// A job run, what remains of it, and steps of it that were carried out elsewhere.
ghost use Rattle.runs_for_c.specs.Counted.{Counted};
ghost use Rattle.runs_for_c.specs.Ran.{lent, running, RanAs};
ghost use Rattle.runs_for_c.specs.Told.{RemainingTold, NextTold};

// Does as many steps as the budget says, or all that remain, and tells how many.
#[unsafe(no_mangle)]
pub extern "C" fn delunkpawi_run(
    job: &mut [u8],
    image: &mut [u8],
    budget: usize,
    done: &mut usize,
) -> u8
    ensures { RanAs result budget (lent job.old image.old done.old)
        (lent job.new image.new done.new)
        (running job.old image.old) }
{
    linked::runs::delunkpawi_run(job, image, budget, done)
}

// How many steps remain.
#[unsafe(no_mangle)]
pub extern "C" fn delunkpawi_remaining(job: &[u8], count: &mut usize) -> u8
    ensures { RemainingTold job.now result count.old count.new }
{
    linked::runs::delunkpawi_remaining(job, count)
}

// Which step comes next: 0 for none, 1 for a byte programmed at an address, 2 for a granule erased there.
#[unsafe(no_mangle)]
pub extern "C" fn delunkpawi_next_step(
    job: &[u8],
    kind: &mut u8,
    address: &mut usize,
    byte: &mut u8,
) -> u8
    ensures { NextTold job.now result
        kind.old kind.new
        address.old address.new
        byte.old byte.new }
{
    linked::runs::delunkpawi_next_step(job, kind, address, byte)
}

// Counts steps that were carried out elsewhere, in their order: so many, or all that remain; tells how many.
#[unsafe(no_mangle)]
pub extern "C" fn delunkpawi_advance(job: &mut [u8], steps: usize, count: &mut usize) -> u8
    ensures { Counted steps result job.old job.new count.old count.new }
{
    linked::runs::delunkpawi_advance(job, steps, count)
}

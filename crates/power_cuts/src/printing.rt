// The lines of an image and of a command.
use super::tally::Tally;
use rules::SlotNo;
use std::io;

// The image, and with how many choices of its bytes each erase is cut.
pub fn print_image(rt: &impl Print, path: &str, cuts: usize) -> io::Result<()> {
    println!(rt; "{path}, each erase cut {cuts} times")
}

pub fn print_command(rt: &impl Print, command: &str, slot: SlotNo) -> io::Result<()> {
    print!(rt; "{command} {}: ", slot.0)
}

// How many steps a job has, and what was read after its cuts; each number is a write of its own.
pub fn print_tally(rt: &impl Print, steps: usize, t: Tally) -> io::Result<()> {
    print!(rt; "{steps} steps, ")?;
    print!(rt; "{} cuts: ", t.cuts)?;
    print!(rt; "{} old, ", t.old)?;
    print!(rt; "{} new, ", t.new)?;
    print!(rt; "{} neither; ", t.neither)?;
    print!(rt; "{} repaired, ", t.repaired)?;
    println!(rt; "{} then right", t.right)
}

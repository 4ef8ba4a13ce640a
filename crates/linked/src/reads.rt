// A flash read: its boot order, its slots, what is known of one.
ghost use Rattle.std.specs.Prelude.{length};
ghost use Rattle.rules.specs.Numbers.{setting};
ghost use Rattle.rules.specs.Readers.{order_list, slot_count, slot_info};
ghost use Rattle.reads_for_c.specs.Answered.{Written, name_answer};
ghost use Rattle.reads_for_c.specs.Told.{CountTold, SlotTold};

use rules::{Setting, SlotNo};

// The boot order's slot numbers into the front of the row, and how many there are.
pub fn delunkpawi_order(
    image: &[u8],
    granule: usize,
    spt0: usize,
    spt1: usize,
    row: &mut [u32],
    count: &mut usize,
) -> u8
    ensures { Written (order_list (setting granule spt0 spt1) image.now (length row.old)) result
        row.old row.new count.old count.new }
{
    let setting = Setting {
        granule: granule,
        spt0: spt0,
        spt1: spt1,
    };
    reads_for_c::reads::order(image, setting, row, count)
}

// How many application slots there are.
pub fn delunkpawi_slot_count(
    image: &[u8],
    granule: usize,
    spt0: usize,
    spt1: usize,
    count: &mut usize,
) -> u8
    ensures { CountTold (slot_count (setting granule spt0 spt1) image.now) result count.old count.new }
{
    let setting = Setting {
        granule: granule,
        spt0: spt0,
        spt1: spt1,
    };
    reads_for_c::reads::slot_count(image, setting, count)
}

// The entry number, start, length and flags of a slot.
pub fn delunkpawi_slot_facts(
    image: &[u8],
    granule: usize,
    spt0: usize,
    spt1: usize,
    slot: u32,
    entry: &mut usize,
    start: &mut u64,
    size: &mut u64,
    flags: &mut u64,
) -> u8
    ensures { SlotTold (slot_info (setting granule spt0 spt1) image.now slot) result
        entry.old entry.new
        start.old start.new
        size.old size.new
        flags.old flags.new }
{
    let setting = Setting {
        granule: granule,
        spt0: spt0,
        spt1: spt1,
    };
    reads_for_c::reads::slot_facts(image, setting, SlotNo(slot), entry, start, size, flags)
}

// The name of a slot up to its zero into the front of the lent bytes, and its length; 91 where they are too few.
pub fn delunkpawi_slot_name(
    image: &[u8],
    granule: usize,
    spt0: usize,
    spt1: usize,
    slot: u32,
    name: &mut [u8],
    count: &mut usize,
) -> u8
    ensures { Written (name_answer (setting granule spt0 spt1) image.now slot (length name.old)) result
        name.old name.new count.old count.new }
{
    let setting = Setting {
        granule: granule,
        spt0: spt0,
        spt1: spt1,
    };
    reads_for_c::reads::slot_name(image, setting, SlotNo(slot), name, count)
}

// A flash read: its boot order, its slots, what is known of one.
ghost use Rattle.std.specs.Prelude.{length};
ghost use Rattle.rules.specs.Readers.{order_list, slot_count, slot_info};
ghost use Rattle.reads_for_c.specs.Answered.{Written, name_answer};
ghost use Rattle.reads_for_c.specs.Told.{CountTold, SlotTold};

use codes::answers;
use rules::{Setting, SlotNo};

// The boot order's slot numbers into the front of the row, and how many there are.
pub fn order(image: &[u8], setting: Setting, row: &mut [u32], count: &mut usize) -> u8
    ensures { Written (order_list setting image.now (length row.old)) result
        row.old row.new count.old count.new }
{
    answers::told(reading::order_list(image, setting, row), count)
}

// How many application slots there are.
pub fn slot_count(image: &[u8], setting: Setting, count: &mut usize) -> u8
    ensures { CountTold (slot_count setting image.now) result count.old count.new }
{
    answers::told(reading::slot_count(image, setting), count)
}

// The entry number, start, length and flags of a slot.
pub fn slot_facts(
    image: &[u8],
    setting: Setting,
    slot: SlotNo,
    entry: &mut usize,
    start: &mut u64,
    size: &mut u64,
    flags: &mut u64,
) -> u8
    ensures { SlotTold (slot_info setting image.now slot.0) result
        entry.old entry.new
        start.old start.new
        size.old size.new
        flags.old flags.new }
{
    match reading::slot_info(image, setting, slot) {
        Err(why) => why.number(),
        Ok(f) => {
            *entry = f.entry.0;
            *start = f.start;
            *size = f.size;
            *flags = f.flags;
            0
        }
    }
}

// The name of a slot up to its zero into the front of the lent bytes, and its length; 91 where they are too few.
pub fn slot_name(
    image: &[u8],
    setting: Setting,
    slot: SlotNo,
    name: &mut [u8],
    count: &mut usize,
) -> u8
    ensures { Written (name_answer setting image.now slot.0 (length name.old)) result
        name.old name.new count.old count.new }
{
    let found = reading::slot_name(image, setting, slot);
    let known = reading::slot_info(image, setting, slot);
    match codes::name_room::fitting(known, found.len(), name.len()) {
        Err(why) => why.number(),
        Ok(_) => {
            text::put_bytes(name, 0, found);
            *count = found.len();
            0
        }
    }
}

// A flash looked into: where things are, which copies stand and agree, its entries, its places.
ghost use Rattle.std.specs.Prelude.{length};
ghost use Rattle.rules.specs.Copies.{view};
ghost use Rattle.rules.specs.Readers.{table_faults};
ghost use Rattle.conditions.specs.Condition.{condition};
ghost use Rattle.inspect.specs.Entries.{entry_total};
ghost use Rattle.inspect.specs.Places.{place_total, place_at};
ghost use Rattle.reads_for_c.specs.Inspected.{named_entry};
ghost use Rattle.reads_for_c.specs.Told.{CountTold, ViewTold, CopiesTold, FaultsTold, EntryTold, PlaceTold};

use codes::{answers, judgements};
use rules::{EntryNo, PlaceNo, Setting};

// Where the pointer blocks are, and which copies of table and pointer block are read.
pub fn view(
    image: &[u8],
    setting: Setting,
    cpb0: &mut usize,
    cpb1: &mut usize,
    table: &mut usize,
    pointers: &mut usize,
) -> u8
    ensures { ViewTold (view setting image.now) result
        cpb0.old cpb0.new
        cpb1.old cpb1.new
        table.old table.new
        pointers.old pointers.new }
{
    match views::view(image, setting) {
        Err(why) => why.number(),
        Ok(v) => {
            *cpb0 = v.cpb0;
            *cpb1 = v.cpb1;
            *table = v.table;
            *pointers = v.pointers;
            0
        }
    }
}

// For each of the four blocks 1 if it stands, for each pair 1 if it agrees, else 0.
pub fn copies(
    image: &[u8],
    setting: Setting,
    table0: &mut u8,
    table1: &mut u8,
    pointers0: &mut u8,
    pointers1: &mut u8,
    tables: &mut u8,
    pointers: &mut u8,
) -> u8
    ensures { CopiesTold (condition setting image.now) result
        table0.old table0.new
        table1.old table1.new
        pointers0.old pointers0.new
        pointers1.old pointers1.new
        tables.old tables.new
        pointers.old pointers.new }
{
    match conditions::condition_of(image, setting) {
        Err(why) => why.number(),
        Ok(k) => {
            let bits = judgements::bits_of(k);
            *table0 = bits.spt0;
            *table1 = bits.spt1;
            *pointers0 = bits.cpb0;
            *pointers1 = bits.cpb1;
            *tables = bits.tables;
            *pointers = bits.pointers;
            0
        }
    }
}

// For each of SPT0 and SPT1 the first broken rule, 1 to 11, and the entry that breaks it, 127 where the rule is about no
// entry by itself; 0 and 127 for a copy that stands. Refused 1 to 3 only.
pub fn table_faults(
    image: &[u8],
    setting: Setting,
    rule0: &mut u8,
    entry0: &mut usize,
    rule1: &mut u8,
    entry1: &mut usize,
) -> u8
    ensures { FaultsTold (table_faults setting image.now) result
        rule0.old rule0.new
        entry0.old entry0.new
        rule1.old rule1.new
        entry1.old entry1.new }
{
    match views::table_faults(image, setting) {
        Err(why) => why.number(),
        Ok(faults) => {
            let first = judgements::fault_code(faults.fault0);
            let second = judgements::fault_code(faults.fault1);
            *rule0 = first.rule;
            *entry0 = first.entry;
            *rule1 = second.rule;
            *entry1 = second.entry;
            0
        }
    }
}

// How many entries the table read has.
pub fn entry_count(image: &[u8], setting: Setting, count: &mut usize) -> u8
    ensures { CountTold (entry_total setting image.now) result count.old count.new }
{
    answers::told(inspect::entry::entry_total(image, setting), count)
}

// The name of an entry up to its zero into the front of the lent bytes, its length, and the entry's start, length and
// flags; 91 where the lent bytes are too few.
pub fn entry(
    image: &[u8],
    setting: Setting,
    entry: EntryNo,
    name: &mut [u8],
    count: &mut usize,
    start: &mut u64,
    size: &mut u64,
    flags: &mut u64,
) -> u8
    ensures { EntryTold (named_entry setting image.now entry.0 (length name.old)) result
        name.old name.new
        count.old count.new
        start.old start.new
        size.old size.new
        flags.old flags.new }
{
    let found = inspect::entry::entry_name(image, setting, entry);
    let known = inspect::entry::entry_info(image, setting, entry);
    match codes::name_room::fitting(known, found.len(), name.len()) {
        Err(why) => why.number(),
        Ok(f) => {
            text::put_bytes(name, 0, found);
            *count = found.len();
            *start = f.start;
            *size = f.size;
            *flags = f.flags;
            0
        }
    }
}

// How many places the pointer block read has.
pub fn place_count(image: &[u8], setting: Setting, count: &mut usize) -> u8
    ensures { CountTold (place_total setting image.now) result count.old count.new }
{
    answers::told(inspect::place::place_total(image, setting), count)
}

// What a place holds: 0 for erased, 1 for live with its slot, 2 for spent, 3 for part-written, 4 for stray; and its value.
pub fn place(
    image: &[u8],
    setting: Setting,
    place: PlaceNo,
    kind: &mut u8,
    slot: &mut u32,
    value: &mut u64,
) -> u8
    ensures { PlaceTold (place_at setting image.now place.0) result
        kind.old kind.new
        slot.old slot.new
        value.old value.new }
{
    match inspect::place::place_at(image, setting, place) {
        Err(why) => why.number(),
        Ok(h) => {
            let code = judgements::place_code(h.judgement);
            *kind = code.kind;
            *slot = code.slot;
            *value = h.value;
            0
        }
    }
}

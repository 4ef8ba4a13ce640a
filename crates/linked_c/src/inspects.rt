// A flash looked into: where things are, which copies stand and agree, its entries, its places.
ghost use Rattle.std.specs.Prelude.{length};
ghost use Rattle.rules.specs.Numbers.{setting};
ghost use Rattle.rules.specs.Copies.{view};
ghost use Rattle.rules.specs.Readers.{table_faults};
ghost use Rattle.conditions.specs.Condition.{condition};
ghost use Rattle.inspect.specs.Entries.{entry_total};
ghost use Rattle.inspect.specs.Places.{place_total, place_at};
ghost use Rattle.reads_for_c.specs.Inspected.{named_entry};
ghost use Rattle.reads_for_c.specs.Told.{CountTold, ViewTold, CopiesTold, FaultsTold, EntryTold, PlaceTold};

// Where the pointer blocks are, and which copies of table and pointer block are read.
#[unsafe(no_mangle)]
pub extern "C" fn delunkpawi_view(
    image: &[u8],
    granule: usize,
    spt0: usize,
    spt1: usize,
    cpb0: &mut usize,
    cpb1: &mut usize,
    table: &mut usize,
    pointers: &mut usize,
) -> u8
    ensures { ViewTold (view (setting granule spt0 spt1) image.now) result
        cpb0.old cpb0.new
        cpb1.old cpb1.new
        table.old table.new
        pointers.old pointers.new }
{
    linked::inspects::delunkpawi_view(image, granule, spt0, spt1, cpb0, cpb1, table, pointers)
}

// For each of the four blocks 1 if it stands, for each pair 1 if it agrees, else 0.
#[unsafe(no_mangle)]
pub extern "C" fn delunkpawi_copies(
    image: &[u8],
    granule: usize,
    spt0: usize,
    spt1: usize,
    table0: &mut u8,
    table1: &mut u8,
    pointers0: &mut u8,
    pointers1: &mut u8,
    tables: &mut u8,
    pointers: &mut u8,
) -> u8
    ensures { CopiesTold (condition (setting granule spt0 spt1) image.now) result
        table0.old table0.new
        table1.old table1.new
        pointers0.old pointers0.new
        pointers1.old pointers1.new
        tables.old tables.new
        pointers.old pointers.new }
{
    linked::inspects::delunkpawi_copies(
        image, granule, spt0, spt1, table0, table1, pointers0, pointers1, tables, pointers,
    )
}

// For each of SPT0 and SPT1 the first broken rule, 1 to 11, and the entry that breaks it, 127 where the rule is about no
// entry by itself; 0 and 127 for a copy that stands. Refused 1 to 3 only.
#[unsafe(no_mangle)]
pub extern "C" fn delunkpawi_table_faults(
    image: &[u8],
    granule: usize,
    spt0: usize,
    spt1: usize,
    rule0: &mut u8,
    entry0: &mut usize,
    rule1: &mut u8,
    entry1: &mut usize,
) -> u8
    ensures { FaultsTold (table_faults (setting granule spt0 spt1) image.now) result
        rule0.old rule0.new
        entry0.old entry0.new
        rule1.old rule1.new
        entry1.old entry1.new }
{
    linked::inspects::delunkpawi_table_faults(
        image, granule, spt0, spt1, rule0, entry0, rule1, entry1,
    )
}

// How many entries the table read has.
#[unsafe(no_mangle)]
pub extern "C" fn delunkpawi_entry_count(
    image: &[u8],
    granule: usize,
    spt0: usize,
    spt1: usize,
    count: &mut usize,
) -> u8
    ensures { CountTold (entry_total (setting granule spt0 spt1) image.now) result count.old count.new }
{
    linked::inspects::delunkpawi_entry_count(image, granule, spt0, spt1, count)
}

// The name of an entry up to its zero into the front of the lent bytes, its length, and the entry's start, length and
// flags; 91 where the lent bytes are too few.
#[unsafe(no_mangle)]
pub extern "C" fn delunkpawi_entry(
    image: &[u8],
    granule: usize,
    spt0: usize,
    spt1: usize,
    entry: usize,
    name: &mut [u8],
    count: &mut usize,
    start: &mut u64,
    size: &mut u64,
    flags: &mut u64,
) -> u8
    ensures { EntryTold (named_entry (setting granule spt0 spt1) image.now entry (length name.old)) result
        name.old name.new
        count.old count.new
        start.old start.new
        size.old size.new
        flags.old flags.new }
{
    linked::inspects::delunkpawi_entry(
        image, granule, spt0, spt1, entry, name, count, start, size, flags,
    )
}

// How many places the pointer block read has.
#[unsafe(no_mangle)]
pub extern "C" fn delunkpawi_place_count(
    image: &[u8],
    granule: usize,
    spt0: usize,
    spt1: usize,
    count: &mut usize,
) -> u8
    ensures { CountTold (place_total (setting granule spt0 spt1) image.now) result count.old count.new }
{
    linked::inspects::delunkpawi_place_count(image, granule, spt0, spt1, count)
}

// What a place holds: 0 for erased, 1 for live with its slot, 2 for spent, 3 for part-written, 4 for stray; and its value.
#[unsafe(no_mangle)]
pub extern "C" fn delunkpawi_place(
    image: &[u8],
    granule: usize,
    spt0: usize,
    spt1: usize,
    place: usize,
    kind: &mut u8,
    slot: &mut u32,
    value: &mut u64,
) -> u8
    ensures { PlaceTold (place_at (setting granule spt0 spt1) image.now place) result
        kind.old kind.new
        slot.old slot.new
        value.old value.new }
{
    linked::inspects::delunkpawi_place(image, granule, spt0, spt1, place, kind, slot, value)
}

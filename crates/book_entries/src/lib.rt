// The table as the book keeps it: by value, with the new name, without a slot, with a new one.
#![tactic(auto)]

ghost use Rattle.std.specs.Prelude.{◌≡◌, true, cond, ◌<◌, length};
ghost use Rattle.rules.specs.Lists.{same};
ghost use Rattle.rules.specs.Bytes.{block_size};
ghost use Rattle.rules.specs.Table.{entry_count, entries};
ghost use Rattle.rules.specs.Readers.{slot_row};
ghost use Rattle.rules.specs.Commands.{size_right, with_new_row, without_row};
ghost use Rattle.rules.specs.Book.{renamed, start_for};
ghost use Rattle.book_entries.specs.Tables.{new_name, no_block, has_slot, has_row};

use entries::Entries;
use rules::{EntryNo, Setting, SlotNo};
use views::opened;

// The new name of every rename.
pub fn new_name() -> [u8; 15]
    ensures { result ≡ new_name }
{
    [
        b'S', b'O', b'L', b'V', b'E', b'R', b'_', b'2', b'0', b'2', b'7', b'_', b'J', b'U', b'L',
    ]
}

pub fn same_bytes(a: &[u8], b: &[u8]) -> bool
    ensures { result ≡ same a.now b.now }
{
    check::same(a, b)
}

#[tactic(auto, unfolding(crate::specs::Tables::no_block))]
pub fn no_block() -> [u8; rules::BLOCK_SIZE]
    ensures { result ≡ no_block }
{
    [0; rules::BLOCK_SIZE]
}

// A lent block by value.
pub fn block_of(part: &[u8]) -> [u8; rules::BLOCK_SIZE]
    requires { length part.now ≡ block_size }
    ensures { result ≡ part.now }
{
    let mut block = no_block();
    text::put_bytes(&mut block, 0, part);
    block
}

// A table with the new name in the entry of a slot; as it was where it has no such slot.
pub fn renamed(table: [u8; rules::BLOCK_SIZE], slot: SlotNo) -> [u8; rules::BLOCK_SIZE]
    ensures { result ≡ cond (has_slot table slot.0) (renamed table slot.0 new_name) table }
{
    if !has_slot(table, slot) {
        return table;
    }
    let e = entry_of(table, slot);
    let name = new_name();
    if Entries::counted(&table).get(e).has_name(&name) {
        return table;
    }
    let mut made = no_block();
    blocks::tables::put_name(&table, e, &name, &mut made);
    made
}

// A table has such a slot, among no more entries than there is room for.
#[tactic(auto, unfolding(crate::specs::Tables::has_slot, rules::specs::Readers::slot_there))]
pub fn has_slot(table: [u8; rules::BLOCK_SIZE], slot: SlotNo) -> bool
    ensures { result ≡ has_slot table slot.0 }
{
    entries::entry_count(&table) <= rules::MOST_ENTRIES
        && (slot.0 as usize) < slots::count_slots(&Entries::counted(&table))
}

// The entry of a slot that a table has.
fn entry_of(table: [u8; rules::BLOCK_SIZE], slot: SlotNo) -> EntryNo
    requires { has_slot table slot.0 ≡ true }
    ensures { result.0 ≡ slot_row (entries table) slot.0 }
{
    match slots::slot_row(&Entries::counted(&table), slot) {
        Some(e) => e,
        None => EntryNo(entries::entry_count(&table)),
    }
}

// A table without the row of a slot that it has.
pub fn without_slot(table: [u8; rules::BLOCK_SIZE], slot: SlotNo) -> [u8; rules::BLOCK_SIZE]
    requires { has_slot table slot.0 ≡ true }
    ensures { result ≡ without_row table (slot_row (entries table) slot.0) }
{
    let e = entry_of(table, slot);
    let mut made = no_block();
    table_rows::put_without_row(&table, e, &mut made);
    made
}

// Where a new slot of this length starts on a flash; 0 where the flash cannot be read.
fn start_for(image: &[u8], setting: Setting, size: u64) -> u64
    requires { (size_right size ≡ true) × (size < 0x100000000) }
    ensures { result ≡ start_for setting image.now size }
{
    match opened::open(image, setting) {
        Err(_) => 0,
        Ok(flash) => {
            let t = flash.table();
            let p = flash.pointers();
            rooms::lowest_start(t.entries(), &p, flash.image.len() as u64, size)
        }
    }
}

// A row is left, and the length of a new slot is right.
#[tactic(auto, unfolding(crate::specs::Tables::has_row))]
fn has_row(n: usize, size: u64) -> bool
    ensures { result ≡ has_row n size }
{
    (n < rules::MOST_ENTRIES) & rooms::size_right(size)
}

// A table with a row for a new slot of this length on a flash; as it was where no row is left or the length is not right.
pub fn with_new_slot(
    table: [u8; rules::BLOCK_SIZE],
    image: &[u8],
    setting: Setting,
    size: u32,
) -> [u8; rules::BLOCK_SIZE]
    ensures { result ≡ cond (has_row (entry_count table) size)
        (with_new_row table new_name (start_for setting image.now size) size) table }
{
    let long = size as u64;
    let n = entries::entry_count(&table);
    if !has_row(n, long) {
        return table;
    }
    let start = start_for(image, setting, long);
    let name = new_name();
    let mut made = no_block();
    table_rows::put_new_row(&table, &name, start, long, &mut made);
    made
}

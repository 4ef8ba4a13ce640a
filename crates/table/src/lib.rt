// One copy of the sub-partition table: whether it stands by the eleven rules, and the first of them that it breaks. What
// rules 3 to 7 and 9 to 11 ask of one entry, or of two, is in `entry_tests`; the first entry that does not keep it is
// found in `entry_rules`.
#![tactic(auto)]

ghost use Rattle.std.specs.Prelude.{◌≡◌, ◌+◌, ◌≤◌, ◌<◌, length};
ghost use Rattle.rules.specs.Bytes.{block, block_size};
ghost use Rattle.rules.specs.Table.{magic_right, header_right, count_right, table_stands, fault};

use entries::Entries;
use rules::{EntryNo, Fault, Setting, TableRule};

mod faults; // rules 3 to 11, over the counted entries

// What bytes 0-3 and 4-7 of a table hold.
const MAGIC: u64 = 0x57713427;

const VERSION: u64 = 0;

// The copy at an address of the image stands: no rule is broken.
#[tactic(auto, using(rules::proofs::Table::Faults::stands_exactly))]
pub fn table_stands(image: &[u8], at: usize, setting: Setting) -> bool
    requires { (at + block_size ≤ length image.now) × (0 < setting.granule) }
    ensures { result
        ≡ table_stands setting (length image.now) (block image.now at) }
{
    table_fault(image, at, setting).is_none()
}

// The first broken rule of the copy at an address of the image, and the entry that breaks it.
pub fn table_fault(image: &[u8], at: usize, setting: Setting) -> Option<Fault>
    requires { (at + block_size ≤ length image.now) × (0 < setting.granule) }
    ensures { result ≡ fault setting (length image.now) (block image.now at) }
{
    let table = fields::block_at(image, at);
    if !header_is_right(table) {
        return faults::broken_at(TableRule::HeaderRight, EntryNo(faults::NO_ENTRY));
    }
    if !count_is_right(table) {
        return faults::broken_at(TableRule::CountRight, EntryNo(faults::NO_ENTRY));
    }
    faults::entries_fault(&Entries::counted(table), image.len() as u64, setting)
}

// The copy at an address of the image begins with the magic.
#[tactic(auto, unfolding(rules::specs::Table::magic_right))]
pub fn magic_right(image: &[u8], at: usize) -> bool
    requires { at + block_size ≤ length image.now }
    ensures { result ≡ magic_right (block image.now at) }
{
    fields::number::<4>(fields::block_at(image, at), 0) == MAGIC
}

// Rule 1: magic and version.
#[tactic(auto, unfolding(rules::specs::Table::magic_right, rules::specs::Table::header_right))]
fn header_is_right(table: &[u8]) -> bool
    requires { length table.now ≡ block_size }
    ensures { result ≡ header_right table.now }
{
    (fields::number::<4>(table, 0) == MAGIC) & (fields::number::<4>(table, 4) == VERSION)
}

// Rule 2: the number of entries.
#[tactic(auto, unfolding(rules::specs::Table::count_right))]
fn count_is_right(table: &[u8]) -> bool
    requires { length table.now ≡ block_size }
    ensures { result ≡ count_right table.now }
{
    let n = entries::entry_count(table);
    (1 <= n) & (n <= rules::MOST_ENTRIES)
}

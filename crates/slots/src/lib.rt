// The application slots of a table.
#![tactic(auto)]

ghost use Rattle.std.specs.Prelude.{◌≡◌, ◌+◌, ◌≤◌, ◌<◌, length, drop};
ghost use Rattle.rules.specs.Bytes.{block_size};
ghost use Rattle.rules.specs.Table.{entry_count, entries, is_slot, slots};
ghost use Rattle.rules.specs.Readers.{slot_row};
ghost use Rattle.walks.specs.Find.{find};
ghost use Rattle.walks.specs.Last.{last_from};
ghost use Rattle.walks.specs.Entries.{HasEntries, slot_from};
ghost use Rattle.entries.specs.Tests.{Found};
ghost use Rattle.slots.specs.Inner.RowsOf.{slots_from, slots_before};

use entries::{Entries, Entry};
use rules::{EntryNo, SlotNo};
use std::marker::Model;

// ---- one entry

// The entry is an application slot: flag bits 0 and 1 clear and a name other than the six.
#[tactic(auto, unfolding(rules::specs::Table::is_slot, rules::specs::Bytes::multiple, rules::specs::Table::name))]
pub fn is_slot(e: &Entry<'_>) -> bool
    ensures { result ≡ is_slot e.now }
{
    e.flags() % 4 == 0 && !names::is_fixed_name(e.name())
}

// The entry is a slot that starts there. The start is compared first: most entries differ in it, and the names, of
// which `is_slot` compares six, then need no look.
#[tactic(auto, unfolding(walks::specs::Entries::slot_from))]
fn is_slot_from(e: &Entry<'_>, start: u64) -> bool
    ensures { result ≡ slot_from start e.now }
{
    e.start() == start && is_slot(e)
}

// ---- all entries

// How many of the entries are slots.
#[tactic(auto, unfolding(rules::specs::Table::slots))]
pub fn count_slots(entries: &Entries<'_>) -> usize
    ensures { (result ≡ length (slots entries.now)) × (result ≤ length entries.now) }
{
    entries.count(|e| is_slot(e))
}

// The first slot that starts there.
#[tactic(auto, using(crate::proofs::Steps::start_here, crate::proofs::Steps::start_goes, crate::proofs::Steps::start_over))]
pub fn find_slot(entries: &Entries<'_>, start: u64) -> Option<EntryNo>
    ensures { Found entries.now (find (slot_from start) entries.now) result }
{
    for i in none_before(entries, start)..entries.len() {
        if is_slot_from(&entries.get(EntryNo(i)), start) {
            return Some(EntryNo(i));
        }
    }
    None
}

// The number of the entry from which on to look for the slot, found four entries at a time: none before it starts there.
#[tactic(auto, using(crate::proofs::Steps::none_starts))]
fn none_before(entries: &Entries<'_>, start: u64) -> usize
    ensures found { find (slot_from start) entries.now
        ≡ result + find (slot_from start) (drop result entries.now) }
    ensures within { result ≤ length entries.now }
{
    let n = entries.len();
    let mut i = 0;
    while i + 4 <= n {
        if entries.starts_in_four(EntryNo(i), start) {
            return i;
        }
        i += 4;
    }
    i
}

// The entry of a slot.
#[tactic(auto, using(crate::proofs::Steps::row_here, crate::proofs::Steps::row_inside, crate::proofs::Steps::row_goes, crate::proofs::Steps::row_over, crate::proofs::Steps::enough_left))]
pub fn slot_row(entries: &Entries<'_>, slot: SlotNo) -> Option<EntryNo>
    ensures { Found entries.now (slot_row entries.now slot.0) result }
{
    let mut left = slot.0 as usize;
    for i in 0..entries.len() {
        let met = is_slot(&entries.get(EntryNo(i)));
        if met & (left == 0) {
            return Some(EntryNo(i));
        }
        left -= usize::from(met);
    }
    None
}

// The lowest number from which on all entries are slots; the number of entries where the last is none.
#[tactic(auto, using(crate::proofs::Steps::last_start, crate::proofs::Steps::last_here, crate::proofs::Steps::last_further, crate::proofs::Steps::last_over))]
fn last_from(entries: &Entries<'_>) -> EntryNo
    ensures found { result.0 ≡ last_from is_slot entries.now }
    ensures within { result.0 ≤ length entries.now }
{
    for i in (0..entries.len()).rev() {
        if !is_slot(&entries.get(EntryNo(i))) {
            return EntryNo(i + 1);
        }
    }
    EntryNo(0)
}

// ---- a table

// A lent table of which all entries count that it says it has, with what slot numbers follow from: the entry from which on
// all are slots, and how many slots come before it. A table has its slots last as a rule, so that most slot numbers follow
// from entry numbers without a count.
#[derive(Clone, Drop)]
pub struct Table<'a> {
    bytes: &'a [u8],
    entries: Entries<'a>,
    from: EntryNo,
    before: usize,
}

impl<'a> Model for Table<'a> {
    ghost use Rattle.std.specs.Prelude.{List, ℕ};
    ghost use Rattle.slots.specs.Inner.RowsOf.{HasRows};

    ghost Value = { List ℕ };

    ghost view = { λ t. t.bytes.now };

    ghost invariant = { λ t. HasRows t.bytes.now t.entries t.from.0 t.before };
}

impl<'a> Table<'a> {
    #[tactic(auto, unfolding(crate::specs::Inner::RowsOf::slots_from, crate::specs::Inner::RowsOf::slots_before))]
    pub fn new(bytes: &'a [u8]) -> Table<'a>
        requires { HasEntries bytes.now (entry_count bytes.now) }
        ensures { result ≡ bytes.now }
    {
        let entries = Entries::counted(bytes);
        let from = last_from(&entries);
        let before = count_slots(&entries.before(from));
        Table {
            bytes,
            entries,
            from,
            before,
        }
    }

    // The 4,096 bytes.
    pub fn bytes(&self) -> &'a [u8]
        ensures { (result.now ≡ self.now) × (length result.now ≡ block_size) }
    {
        self.bytes
    }

    // The entries that count.
    pub fn entries(&self) -> &Entries<'a>
        ensures { result.now ≡ entries self.now }
    {
        &self.entries
    }

    // The entry from which on all are slots; the number of entries where the last is none.
    pub fn from(&self) -> EntryNo
        ensures { result.0 ≡ slots_from self.now }
    {
        self.from
    }

    // How many slots come before it.
    pub fn before(&self) -> usize
        ensures { result ≡ slots_before self.now (slots_from self.now) }
    {
        self.before
    }

    // The number of the slot at an entry: as many slots come before it.
    #[tactic(auto, using(crate::proofs::RowsOf::slot_reckoned, crate::proofs::RowsOf::slot_fits, crate::proofs::RowsOf::slot_sum_fits, crate::proofs::RowsOf::slot_counted))]
    pub fn slot_at(&self, e: EntryNo) -> SlotNo
        requires { e.0 < length (entries self.now) }
        ensures { result.0 ≡ slots_before self.now e.0 }
    {
        if self.from.0 <= e.0 {
            let further = e.0 - self.from.0;
            return SlotNo((self.before + further) as u32);
        }
        SlotNo(count_slots(&self.entries.before(e)) as u32)
    }

    // How many slots there are: those before, and the entries from there on.
    #[tactic(auto, using(crate::proofs::RowsOf::total_reckoned, crate::proofs::RowsOf::total_few, crate::proofs::RowsOf::total_fits, crate::proofs::RowsOf::total_below))]
    pub fn slot_total(&self) -> usize
        ensures { (result ≡ length (slots (entries self.now))) × (result ≤ length (entries self.now)) }
    {
        self.before + (self.entries.len() - self.from.0)
    }

    // The entry of a slot.
    #[tactic(auto, using(crate::proofs::RowsOf::row_reckoned, crate::proofs::RowsOf::row_within, crate::proofs::RowsOf::row_fits))]
    pub fn row_of(&self, slot: SlotNo) -> Option<EntryNo>
        ensures { Found (entries self.now) (slot_row (entries self.now) slot.0) result }
    {
        let number = slot.0 as usize;
        if (self.before <= number) & (number < self.slot_total()) {
            let further = number - self.before;
            return Some(EntryNo(self.from.0 + further));
        }
        slot_row(&self.entries, slot)
    }
}

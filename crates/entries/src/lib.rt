// The entries of a sub-partition table, 4,096 bytes lent as a slice, by entry number and by name.
#![tactic(auto)]

ghost use Rattle.std.specs.Prelude.{◌≡◌, ◌+◌, ◌*◌, ◌≤◌, ◌<◌, eqb, length, take, get_or, IfSome, is_some};
ghost use Rattle.rules.specs.Bytes.{block_size, up_to_zero};
ghost use Rattle.rules.specs.Lists.{all, any, keep};
ghost use Rattle.rules.specs.Table.{entry_count, rows, entries, has_name, named, no_entry, name};
ghost use Rattle.walks.specs.Find.{find};
ghost use Rattle.entries.specs.Tests.{Decides, Found};
ghost use Rattle.walks.specs.Four.{one_of_four};
ghost use Rattle.walks.specs.Entries.{most_entries, HasEntries};

use rules::EntryNo;
use std::marker::Model;

// Where the entries begin, and the length of one.
const FIRST_ENTRY: usize = 0x20;

const ENTRY_LENGTH: usize = 32;

// The bytes of a name with its zero.
pub const NAME_LENGTH: usize = 16;

// One entry of a lent table.
#[derive(Clone, Drop)]
pub struct Entry<'a> {
    bytes: &'a [u8],
}

impl<'a> Model for Entry<'a> {
    ghost use Rattle.std.specs.Prelude.{length, ◌≡◌};
    ghost use Rattle.rules.specs.Table.{Entry as EntryValue, entry};

    ghost Value = { EntryValue };

    ghost view = { λ e. entry e.bytes.now };

    ghost invariant = { λ e. length e.bytes.now ≡ 32 };
}

impl<'a> Entry<'a> {
    // The 16 bytes of the name.
    #[tactic(auto, unfolding(rules::specs::Table::entry))]
    pub fn name(&self) -> &'a [u8]
        ensures { (result.now ≡ self.now.name_field) × (length result.now ≡ 16) }
    {
        &self.bytes[..NAME_LENGTH]
    }

    #[tactic(auto, unfolding(rules::specs::Table::entry))]
    pub fn start(&self) -> u64
        ensures { result ≡ self.now.start }
    {
        fields::number::<8>(self.bytes, 16)
    }

    #[tactic(auto, unfolding(rules::specs::Table::entry))]
    pub fn size(&self) -> u64
        ensures { result ≡ self.now.size }
    {
        fields::number::<4>(self.bytes, 24)
    }

    #[tactic(auto, unfolding(rules::specs::Table::entry))]
    pub fn flags(&self) -> u64
        ensures { result ≡ self.now.flags }
    {
        fields::number::<4>(self.bytes, 28)
    }

    // The entry has that name, both up to their zero bytes. The first byte decides for most.
    pub fn has_name(&self, wanted: &[u8]) -> bool
        ensures { result ≡ has_name (up_to_zero wanted.now) self.now }
    {
        let name = self.name();
        if !names::begin_alike(name, wanted) {
            return false;
        }
        names::same_name(name, wanted)
    }
}

// The first entries of a lent table, no more than it has room for.
#[derive(Clone, Drop)]
pub struct Entries<'a> {
    rows: &'a [[u8; ENTRY_LENGTH]],
}

impl<'a> Model for Entries<'a> {
    ghost use Rattle.std.specs.Prelude.{List, map, length, ◌≤◌};
    ghost use Rattle.rules.specs.Table.{Entry as EntryValue, entry};
    ghost use Rattle.walks.specs.Entries.{most_entries};

    ghost Value = { List EntryValue };

    ghost view = { λ e. map entry e.rows.now };

    ghost invariant = { λ e. length e.rows.now ≤ most_entries };
}

impl<'a> Entries<'a> {
    // The first n entries of a table.
    #[tactic(auto, using(crate::proofs::Chunks::first_of_table))]
    pub fn new(table: &'a [u8], n: usize) -> Entries<'a>
        requires { HasEntries table.now n }
        ensures { result ≡ rows n table.now }
    {
        let (rows, _) = table[FIRST_ENTRY..].as_chunks::<ENTRY_LENGTH>();
        Entries { rows: &rows[..n] }
    }

    // The entries that count by the table itself.
    #[tactic(auto, unfolding(rules::specs::Table::entries))]
    pub fn counted(table: &'a [u8]) -> Entries<'a>
        requires { HasEntries table.now (entry_count table.now) }
        ensures { result ≡ entries table.now }
    {
        Entries::new(table, entry_count(table))
    }

    // The entries of lower numbers.
    #[tactic(auto, using(crate::proofs::Chunks::first_mapped))]
    pub fn before(&self, e: EntryNo) -> Entries<'a>
        requires { e.0 ≤ length self.now }
        ensures { result ≡ take e.0 self.now }
    {
        let rows = self.rows;
        Entries { rows: &rows[..e.0] }
    }

    pub fn len(&self) -> usize
        ensures { (result ≡ length self.now) × (result ≤ most_entries) }
    {
        self.rows.len()
    }

    pub fn get(&self, e: EntryNo) -> Entry<'a>
        requires { e.0 < length self.now }
        ensures { result ≡ get_or self.now e.0 no_entry }
    {
        let rows = self.rows;
        Entry { bytes: &rows[e.0] }
    }

    // One of four entries starts there.
    #[tactic(auto, unfolding(walks::specs::Four::one_of_four))]
    pub fn starts_in_four(&self, e: EntryNo, start: u64) -> bool
        requires { e.0 + 4 ≤ length self.now }
        ensures { result ≡ one_of_four (λ i. eqb (get_or self.now i no_entry).start start) e.0 }
    {
        // So few rows that the sums fit.
        let _ = &self.rows;
        (self.get(EntryNo(e.0)).start() == start)
            | (self.get(EntryNo(e.0 + 1)).start() == start)
            | (self.get(EntryNo(e.0 + 2)).start() == start)
            | (self.get(EntryNo(e.0 + 3)).start() == start)
    }

    // How many entries pass a test.
    pub fn count<F: Fn(&Entry<'_>) -> bool>(&self, test: F) -> usize
        requires { F.IsAlwaysCallable test }
        ensures kept { (p : _) → Decides F.Fn test p self.now → result ≡ length (keep p self.now) }
        ensures within { result ≤ length self.now }
    {
        let mut met = 0;
        for i in 0..self.len() {
            met += usize::from(test(&self.get(EntryNo(i))));
        }
        met
    }

    // Every entry passes a test.
    pub fn all<F: Fn(&Entry<'_>) -> bool>(&self, test: F) -> bool
        requires { F.IsAlwaysCallable test }
        ensures { (p : _) → Decides F.Fn test p self.now → result ≡ all p self.now }
    {
        for i in 0..self.len() {
            if !test(&self.get(EntryNo(i))) {
                return false;
            }
        }
        true
    }

    // The first entry that passes a test.
    pub fn position<F: Fn(&Entry<'_>) -> bool>(&self, test: F) -> Option<EntryNo>
        requires { F.IsAlwaysCallable test }
        ensures { (p : _) → Decides F.Fn test p self.now → Found self.now (find p self.now) result }
    {
        for i in 0..self.len() {
            if test(&self.get(EntryNo(i))) {
                return Some(EntryNo(i));
            }
        }
        None
    }

    // The first entry that has the name.
    pub fn find_named(&self, wanted: &[u8]) -> Option<EntryNo>
        ensures { Found self.now (find (has_name (up_to_zero wanted.now)) self.now) result }
    {
        self.position(|e| e.has_name(wanted))
    }

    // Some entry has the name.
    #[tactic(auto, using(crate::proofs::Turns::any_by_found))]
    pub fn is_named(&self, wanted: &[u8]) -> bool
        ensures { result ≡ any (has_name (up_to_zero wanted.now)) self.now }
    {
        self.find_named(wanted).is_some()
    }

    // The first entry that has the name.
    pub fn named(&self, wanted: &[u8]) -> Option<Entry<'a>>
        ensures is { IfSome result (λ e. e ≡ named (up_to_zero wanted.now) self.now) }
        ensures there { is_some result ≡ any (has_name (up_to_zero wanted.now)) self.now }
    {
        match self.find_named(wanted) {
            Some(e) => Some(self.get(e)),
            None => None,
        }
    }

    // The start of the first entry that has the name; 0 where none has.
    pub fn named_start(&self, wanted: &[u8]) -> u64
        ensures { result ≡ (named (up_to_zero wanted.now) self.now).start }
    {
        match self.find_named(wanted) {
            Some(e) => self.get(e).start(),
            None => 0,
        }
    }
}

// Where an entry begins in its table.
pub fn entry_offset(e: EntryNo) -> usize
    requires { e.0 < most_entries }
    ensures { result ≡ 0x20 + 32 * e.0 }
{
    FIRST_ENTRY + ENTRY_LENGTH * e.0
}

#[tactic(auto, unfolding(rules::specs::Table::entry_count))]
pub fn entry_count(table: &[u8]) -> usize
    requires { length table.now ≡ block_size }
    ensures { result ≡ entry_count table.now }
{
    fields::number::<4>(table, 8) as usize
}

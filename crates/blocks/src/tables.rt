// A table: where a slot starts, what a start half cleared names, and the table with another name in an entry.
ghost use Rattle.std.specs.Prelude.{◌≡◌, ◌≤◌, ◌<◌, length, get_or};
ghost use Rattle.rules.specs.Lists.{member, without};
ghost use Rattle.rules.specs.Bytes.{block_size, up_to_zero};
ghost use Rattle.rules.specs.Table.{slot_starts, starts};
ghost use Rattle.rules.specs.Commands.{half_cleared_names, put_name, name_allowed, name_free};
ghost use Rattle.walks.specs.Entries.{most_entries};

use entries::Entries;
use rules::{EntryNo, SlotNo};
use slots::Table;

// Where a slot starts; 0 where there is no such slot.
#[tactic(auto, using(crate::proofs::Naming::start_found, crate::proofs::Naming::start_not_found), unfolding(rules::specs::Table::starts))]
pub fn slot_start(t: &Table<'_>, slot: SlotNo) -> u64
    ensures { result ≡ get_or (starts t.now) slot.0 0 }
{
    match t.row_of(slot) {
        Some(e) => t.entries().get(e).start(),
        None => 0,
    }
}

// ---- a start half cleared

// A slot other than the one that starts at a starts at v.
#[tactic(auto, using(crate::proofs::Naming::same_start, crate::proofs::Naming::other_start, crate::proofs::Naming::no_start))]
fn names_other(entries: &Entries<'_>, a: u64, v: u64) -> bool
    ensures { result ≡ member v (without a (slot_starts entries.now)) }
{
    v != a && slots::find_slot(entries, v).is_some()
}

// The start with its lowest 1, 2 or 3 bytes set to 0 is another slot's.
#[tactic(auto, unfolding(rules::specs::Commands::half_cleared_names))]
pub fn half_cleared_names(entries: &Entries<'_>, start: u64) -> bool
    ensures { result ≡ half_cleared_names (slot_starts entries.now) start }
{
    names_other(entries, start, start / 0x100 * 0x100)
        || names_other(entries, start, start / 0x10000 * 0x10000)
        || names_other(entries, start, start / 0x1000000 * 0x1000000)
}

// ---- a new name

// The name has 1 to 15 bytes, none of them zero, and is none of the six.
pub fn name_allowed(name: &[u8]) -> bool
    ensures { result ≡ name_allowed name.now }
{
    (0 < name.len())
        & (name.len() <= 15)
        & (names::name_length(name) == name.len())
        & !names::is_fixed_name(name)
}

// No entry other than this one has the name.
#[tactic(auto, using(crate::proofs::Naming::free_by_row, crate::proofs::Naming::named_here, crate::proofs::Naming::row_passed, crate::proofs::Naming::named_further, crate::proofs::Naming::named_nowhere))]
pub fn name_free(entries: &Entries<'_>, e: EntryNo, name: &[u8]) -> bool
    ensures { result ≡ name_free entries.now e.0 (up_to_zero name.now) }
{
    for i in 0..entries.len() {
        if i != e.0 && entries.get(EntryNo(i)).has_name(name) {
            return false;
        }
    }
    true
}

// The table with the name, and zeros up to 16, in an entry, into the room; the other bytes as they were.
pub fn put_name(t: &[u8], e: EntryNo, name: &[u8], room: &mut [u8])
    requires { ((length t.now ≡ block_size) × (e.0 < most_entries))
        × ((length name.now ≤ 16) × (length room.old ≡ block_size)) }
    ensures { room.new ≡ put_name t.now e.0 name.now }
{
    let at = entries::entry_offset(e);
    fields::stores::copy_block(room, 0, t);
    fields::stores::copy(room, at, &[0; 16]);
    fields::stores::copy(room, at, name);
}

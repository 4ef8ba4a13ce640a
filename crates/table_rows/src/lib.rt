// A table with a row for a new slot behind the counted ones, or without one of its rows.
#![tactic(auto)]

ghost use Rattle.std.specs.Prelude.{◌≡◌, ◌≤◌, ◌<◌, length};
ghost use Rattle.rules.specs.Bytes.{block_size};
ghost use Rattle.rules.specs.Table.{entry_count};
ghost use Rattle.rules.specs.Commands.{with_new_row, without_row};
ghost use Rattle.walks.specs.Entries.{most_entries};

use blocks::tables;
use rules::EntryNo;

// The row for a new slot: its name and zeros up to 16, its start, its length and flags 0. The count is one more.
pub fn put_new_row(t: &[u8], name: &[u8], start: u64, size: u64, room: &mut [u8])
    requires { ((length t.now ≡ block_size) × (entry_count t.now < most_entries))
        × ((length name.now ≤ 16) × ((size < 0x100000000) × (length room.old ≡ block_size))) }
    ensures { room.new ≡ with_new_row t.now name.now start size }
{
    let n = entries::entry_count(t);
    let at = entries::entry_offset(EntryNo(n));
    tables::put_name(t, EntryNo(n), name, room);
    fields::stores::store::<8>(room, at + 16, start);
    fields::stores::store::<8>(room, at + 24, size);
    fields::stores::store::<4>(room, 8, n as u64 + 1);
}

// The rows after it close up, and every row behind the counted ones is zero. The count is one less.
pub fn put_without_row(t: &[u8], e: EntryNo, room: &mut [u8])
    requires { ((length t.now ≡ block_size) × (entry_count t.now ≤ most_entries))
        × ((e.0 < entry_count t.now) × (length room.old ≡ block_size)) }
    ensures { room.new ≡ without_row t.now e.0 }
{
    let n = entries::entry_count(t);
    let at = entries::entry_offset(e);
    let end = entries::entry_offset(EntryNo(n - 1)) + 32;
    room.fill(0);
    fields::stores::copy(room, 0, &t[..at]);
    fields::stores::copy(room, at, &t[at + 32..end]);
    fields::stores::store::<4>(room, 8, (n - 1) as u64);
}

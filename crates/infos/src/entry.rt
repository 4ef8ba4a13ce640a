// One entry, slot or not, and refusal 92.
ghost use Rattle.std.specs.Prelude.{◌≡◌, ◌<◌, length};
ghost use Rattle.infos.specs.Entries.{info_of, name_of, info_in, name_in};

use entries::Entries;
use rules::{EntryNo, Refusal, SlotInfo};

// The number, start, length and flags of an entry.
#[tactic(auto, unfolding(crate::specs::Entries::info_in, crate::specs::Entries::entry_there, rules::specs::Answers::unless))]
pub fn info_in(entries: &Entries<'_>, entry: EntryNo) -> Result<SlotInfo, Refusal>
    ensures { result ≡ info_in entries.now entry.0 }
{
    if entries.len() <= entry.0 {
        return Err(Refusal::NoSuchEntry);
    }
    Ok(info_of(entries, entry))
}

// The name of an entry up to its zero; empty where there is no such entry.
#[tactic(auto, unfolding(crate::specs::Entries::name_in, crate::specs::Entries::entry_there))]
pub fn name_in<'a>(entries: &Entries<'a>, entry: EntryNo) -> &'a [u8]
    ensures { result.now ≡ name_in entries.now entry.0 }
{
    if entries.len() <= entry.0 {
        return &[];
    }
    name_of(entries, entry)
}

// The same of an entry that is there.
#[tactic(auto, unfolding(crate::specs::Entries::info_of))]
pub fn info_of(entries: &Entries<'_>, entry: EntryNo) -> SlotInfo
    requires { entry.0 < length entries.now }
    ensures { result ≡ info_of entries.now entry.0 }
{
    let e = entries.get(entry);
    SlotInfo {
        entry,
        start: e.start(),
        size: e.size(),
        flags: e.flags(),
    }
}

#[tactic(auto, unfolding(crate::specs::Entries::name_of, rules::specs::Table::name), using(crate::proofs::Names::name_in_front))]
pub fn name_of<'a>(entries: &Entries<'a>, entry: EntryNo) -> &'a [u8]
    requires { entry.0 < length entries.now }
    ensures { result.now ≡ name_of entries.now entry.0 }
{
    let field = entries.get(entry).name();
    &field[..names::name_length(field)]
}

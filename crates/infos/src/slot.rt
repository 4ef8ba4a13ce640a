// One slot, and refusal 7.
ghost use Rattle.std.specs.Prelude.{◌≡◌};
ghost use Rattle.rules.specs.Answers.{given, unless};
ghost use Rattle.rules.specs.Readers.{slot_there, info, name_in};
ghost use Rattle.rules.specs.declared.Refusal.TheVariants.{NoSuchSlot as no_such_slot};

use super::entry;
use entries::Entries;
use rules::{Refusal, SlotInfo, SlotNo};

// The entry number, start, length and flags of a slot.
#[tactic(auto, unfolding(rules::specs::Answers::unless), using(crate::proofs::Slots::there, crate::proofs::Slots::not_there, crate::proofs::Slots::info_by_row))]
pub fn info_in(entries: &Entries<'_>, slot: SlotNo) -> Result<SlotInfo, Refusal>
    ensures { result
        ≡ unless no_such_slot (slot_there entries.now slot.0) (given (info entries.now slot.0)) }
{
    match slots::slot_row(entries, slot) {
        Some(e) => Ok(entry::info_of(entries, e)),
        None => Err(Refusal::NoSuchSlot),
    }
}

// The name of a slot up to its zero; empty where there is no such slot.
#[tactic(auto, unfolding(rules::specs::Readers::name_in), using(crate::proofs::Slots::there, crate::proofs::Slots::not_there, crate::proofs::Slots::name_by_row))]
pub fn name_in<'a>(entries: &Entries<'a>, slot: SlotNo) -> &'a [u8]
    ensures { result.now ≡ name_in entries.now slot.0 }
{
    match slots::slot_row(entries, slot) {
        Some(e) => entry::name_of(entries, e),
        None => &[],
    }
}

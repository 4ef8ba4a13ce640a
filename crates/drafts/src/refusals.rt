// Refusals 6 and 7, which all commands for a slot share.
ghost use Rattle.std.specs.Prelude.{◌≡◌};
ghost use Rattle.drafts.specs.Inner.Asked.{copies_equal, slot_asked};

use rules::{Refusal, SlotNo};
use views::opened::Opened;

// Both pairs agree, and the slot is there.
#[tactic(auto, unfolding(crate::specs::Inner::Asked::slot_asked, rules::specs::Answers::unless, rules::specs::Readers::slot_there))]
pub fn ask_slot(flash: &Opened<'_>, slot: SlotNo) -> Result<(), Refusal>
    ensures { result ≡ slot_asked flash.now.image.now flash.now.view slot.0 }
{
    if !copies_equal(flash) {
        return Err(Refusal::CopiesDiffer);
    }
    if flash.table().slot_total() <= slot.0 as usize {
        return Err(Refusal::NoSuchSlot);
    }
    Ok(())
}

// Both pairs agree, once a copy of each is read.
#[tactic(auto, unfolding(crate::specs::Inner::Asked::copies_equal))]
pub fn copies_equal(flash: &Opened<'_>) -> bool
    ensures { result ≡ copies_equal flash.now.image.now flash.now.view }
{
    let v = flash.view;
    copies::same_blocks(flash.image, v.spt0, v.spt1)
        && copies::same_blocks(flash.image, v.cpb0, v.cpb1)
}

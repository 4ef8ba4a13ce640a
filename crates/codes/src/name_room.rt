// A name that has to fit into lent bytes.
ghost use Rattle.std.specs.Prelude.{◌≡◌};
ghost use Rattle.codes.specs.Inner.Fitting.{fitting};

use rules::{Refusal, SlotInfo};

// What is known of a slot or an entry, or 91 where its name is longer than the bytes lent for it.
#[tactic(auto, unfolding(crate::specs::Inner::Fitting::fitting, rules::specs::Answers::unless))]
pub fn fitting(
    what: Result<SlotInfo, Refusal>,
    size: usize,
    room: usize,
) -> Result<SlotInfo, Refusal>
    ensures { result ≡ fitting what size room }
{
    let info = what?;
    if room < size {
        return Err(Refusal::NameTooLong);
    }
    Ok(info)
}

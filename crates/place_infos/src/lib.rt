// What is told of a place of a pointer block, and refusal 93.
#![tactic(auto)]

ghost use Rattle.std.specs.Prelude.{◌≡◌};
ghost use Rattle.place_infos.specs.Places.{held_in};

use places::PointerBlock;
use rules::{Place, PlaceNo, Refusal};
use slots::Table;

// The judgement of a place, and its value.
#[derive(Clone, Copy, Debug, PartialEq, Eq)]
pub struct Held {
    pub judgement: Place,
    pub value: u64,
}

// The judgement of a place by a table, and its value.
#[tactic(auto, unfolding(crate::specs::Places::held_in, crate::specs::Places::held, rules::specs::Answers::unless), using(crate::proofs::Numbered::value_found))]
pub fn held_in(t: &Table<'_>, p: &PointerBlock<'_>, place: PlaceNo) -> Result<Held, Refusal>
    ensures { result ≡ held_in t.now p.now place.0 }
{
    if p.count() <= place.0 {
        return Err(Refusal::NoSuchPlace);
    }
    let value = p.value(place);
    Ok(Held {
        judgement: places::judge(t, value),
        value,
    })
}

// A command's draft: its job in short, with the bytes that it writes in a room lent beside it. What several commands
// share: refusals 6 and 7, bytes into places.
#![tactic(auto)]

pub mod refusals; // refusals 6 and 7

ghost use Rattle.std.specs.Prelude.{◌≡◌, length};
ghost use Rattle.rules.specs.Bytes.{block_size, bytes_of};
ghost use Rattle.blocks.specs.Made.{places_written};
ghost use Rattle.drafts.specs.Inner.Drafted.{Means};

use blocks::{PlaceList, Target, made};
use job_parts::Plan;

// A command's job in short. The block that both copies of a pair get, or the numbers of the places, stand in the room lent
// beside it; a repair's two blocks are in the image, at these addresses.
#[derive(Clone, Copy, Debug, PartialEq, Eq)]
pub enum Draft {
    NoSteps(Plan),
    Rewritten(Plan),
    IntoPlaces(Plan, u64),
    Repaired(Plan, usize, usize),
}

// The eight bytes of a number into the places noted, in copy 1 of a pair, then in copy 0.
pub fn into_places(to: Target, offset: u32, found: PlaceList, value: u64, room: &mut [u8]) -> Draft
    requires { length room.old ≡ block_size }
    ensures { Means room.new result
        (places_written to.len to.granule offset to.at1 to.at0 found (bytes_of 8 value)) }
{
    fields::stores::copy(room, 0, &found.places);
    Draft::IntoPlaces(made::places_plan(to, offset, found.count), value)
}

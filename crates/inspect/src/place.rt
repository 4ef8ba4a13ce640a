// The places of the pointer block read, by their numbers.
ghost use Rattle.std.specs.Prelude.{◌≡◌};
ghost use Rattle.inspect.specs.Places.{place_total, place_at};

use place_infos::Held;
use rules::{PlaceNo, Refusal, Setting};
use views::opened;

// Refusals 1, 2, 3, 50, 51 and 5, or how many places there are.
#[tactic(auto, unfolding(crate::specs::Places::place_total))]
pub fn place_total(image: &[u8], setting: Setting) -> Result<usize, Refusal>
    ensures { result ≡ place_total setting image.now }
{
    let flash = opened::open(image, setting)?;
    Ok(flash.pointers().count())
}

// Refusals 1, 2, 3, 50, 51, 5 and 93, or what a place holds by the table read.
#[tactic(auto, unfolding(crate::specs::Places::place_at))]
pub fn place_at(image: &[u8], setting: Setting, place: PlaceNo) -> Result<Held, Refusal>
    ensures { result ≡ place_at setting image.now place.0 }
{
    let flash = opened::open(image, setting)?;
    place_infos::held_in(&flash.table(), &flash.pointers(), place)
}

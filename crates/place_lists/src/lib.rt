// The places of a pointer block p by a table t: the slot that comes first, and the places that give a slot.
#![tactic(auto)]

ghost use Rattle.std.specs.Prelude.{◌≡◌, [], ◌∷◌, ◌++◌, ◌<◌, List, ℕ, length, get_or};
ghost use Rattle.rules.specs.Table.{starts};
ghost use Rattle.rules.specs.Pointers.{place_count, judged, gives};
ghost use Rattle.rules.specs.Copies.{order_by};
ghost use Rattle.rules.specs.Commands.{is_first};
ghost use Rattle.jobs.specs.Jobs.{place_room};
ghost use Rattle.places.specs.Inner.Values.{place_value};
ghost use Rattle.blocks.specs.Made.{place_list};
ghost use Rattle.place_lists.specs.Inner.Walked.{places_giving};

use blocks::PlaceList;
use places::PointerBlock;
use rules::{Place, PlaceNo, SlotNo};
use slots::Table;

// The slot is the first of the boot order: the highest live place gives it.
pub fn comes_first(t: &Table<'_>, p: &PointerBlock<'_>, slot: SlotNo) -> bool
    ensures { result ≡ is_first slot.0 (order_by t.now p.now) }
{
    for k in (0..p.free().0).rev() {
        if let Place::Live(s) = places::judge(t, p.value(PlaceNo(k))) {
            return slot.0 == s.0;
        }
    }
    false
}

// ---- the places that give a slot

// The places that give a slot, which starts there, lowest first.
pub fn places_giving(t: &Table<'_>, p: &PointerBlock<'_>, slot: SlotNo, start: u64) -> PlaceList
    requires { start ≡ get_or (starts t.now) slot.0 0 }
    ensures { result ≡ place_list (places_giving t.now p.now slot.0) }
{
    let mut found = no_places();
    for k in 0..p.free().0 {
        if does_give(t, p, PlaceNo(k), slot, start) {
            push(&mut found, PlaceNo(k));
        }
    }
    found
}

// The place gives the slot, which starts there. A place that gives it has its start, so that the others are not judged.
fn does_give(t: &Table<'_>, p: &PointerBlock<'_>, place: PlaceNo, slot: SlotNo, start: u64) -> bool
    requires inside { place.0 < place_count p.now }
    requires begins { start ≡ get_or (starts t.now) slot.0 0 }
    ensures { result ≡ gives slot.0 (judged (starts t.now) (place_value p.now place.0)) }
{
    let v = p.value(place);
    v == start && gives(slot, places::judge(t, v))
}

#[tactic(auto, unfolding(rules::specs::Pointers::gives))]
fn gives(slot: SlotNo, place: Place) -> bool
    ensures { result ≡ gives slot.0 place }
{
    match place {
        Place::Live(s) => slot.0 == s.0,
        _ => false,
    }
}

// ---- lists of places

// A place number by itself.
pub fn one_place(place: PlaceNo) -> PlaceList
    requires { place.0 < place_room }
    ensures { result ≡ place_list (place.0 ∷ []) }
{
    let mut one = no_places();
    push(&mut one, place);
    one
}

fn no_places() -> PlaceList
    ensures { result ≡ place_list [] }
{
    PlaceList {
        places: [0; jobs::PLACES_SIZE],
        count: 0,
    }
}

// A place number after those noted.
fn push(list: &mut PlaceList, place: PlaceNo)
    requires room { list.old.count < place_room }
    requires small { place.0 < place_room }
    ensures { (ks : List ℕ) → list.old ≡ place_list ks → list.new ≡ place_list (ks ++ place.0 ∷ []) }
{
    fields::stores::store::<2>(&mut list.places, 2 * list.count, place.0 as u64);
    list.count += 1;
}

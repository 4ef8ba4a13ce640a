// Walks over the places of a pointer block: the lowest free place, whether a higher place has a value, and what a place
// adds to the boot order.
#![tactic(auto)]

ghost use Rattle.std.specs.Prelude.{◌≡◌, true, false, not, ◌+◌, ◌≤◌, ◌<◌, eqb, drop};
ghost use Rattle.rules.specs.Lists.{all, member};
ghost use Rattle.rules.specs.Table.{starts};
ghost use Rattle.rules.specs.Pointers.{place_count, places, all_ones};
ghost use Rattle.walks.specs.Four.{one_of_four};
ghost use Rattle.places.specs.Inner.StandingPointers.{StandingPointers};
ghost use Rattle.places.specs.Inner.FreePlace.{free_from};
ghost use Rattle.places.specs.Inner.Values.{place_value};
ghost use Rattle.place_walks.specs.Inner.Added.{occurs_above, added_at};

use places::{ALL_ONES, PointerBlock};
use rules::{Place, PlaceNo, SlotNo};
use slots::Table;

// ---- the free place

// A lent pointer block that stands, with its free place.
pub fn pointer_block(bytes: &[u8]) -> PointerBlock<'_>
    requires { StandingPointers bytes.now }
    ensures { result ≡ bytes.now }
{
    PointerBlock::new(bytes, free_place(bytes))
}

// The lowest place such that it and all above are erased; the count of places where the last is not erased.
#[tactic(auto, using(crate::proofs::Free::one_erased, crate::proofs::Free::one_used, crate::proofs::Free::all_erased))]
fn free_place(p: &[u8]) -> PlaceNo
    requires { StandingPointers p.now }
    ensures { result.0 ≡ free_from p.now }
{
    for k in (0..erased_from(p).0).rev() {
        if places::value_at(p, PlaceNo(k)) != ALL_ONES {
            return PlaceNo(k + 1);
        }
    }
    PlaceNo(0)
}

// A place such that it and all above are erased, found eight at a time. Most places are, so that this walk is the most of an
// order list of few slots: one by one, in place of four at a time, it took three times as long.
#[tactic(auto, using(crate::proofs::Free::none_left, crate::proofs::Free::eight_erased))]
fn erased_from(p: &[u8]) -> PlaceNo
    requires { StandingPointers p.now }
    ensures within { result.0 ≤ place_count p.now }
    ensures erased { all all_ones (drop result.0 (places p.now)) ≡ true }
{
    let mut from = places::place_count(p);
    while 8 <= from {
        if used_in_four(p, PlaceNo(from - 8)) | used_in_four(p, PlaceNo(from - 4)) {
            return PlaceNo(from);
        }
        from -= 8;
    }
    PlaceNo(from)
}

// One of four places is not erased. The tests are joined by `|`, so that one branch serves all four.
#[tactic(auto, using(places::proofs::Values::few_places), unfolding(walks::specs::Four::one_of_four, rules::specs::Pointers::all_ones))]
fn used_in_four(p: &[u8], place: PlaceNo) -> bool
    requires { StandingPointers p.now × (place.0 + 4 ≤ place_count p.now) }
    ensures { result ≡ one_of_four (λ k. not (all_ones (place_value p.now k))) place.0 }
{
    (places::value_at(p, place) != ALL_ONES)
        | (places::value_at(p, PlaceNo(place.0 + 1)) != ALL_ONES)
        | (places::value_at(p, PlaceNo(place.0 + 2)) != ALL_ONES)
        | (places::value_at(p, PlaceNo(place.0 + 3)) != ALL_ONES)
}

// ---- what a place adds

// A place above this one has the value, which is not that of an erased place.
#[tactic(auto, using(crate::proofs::Free::held_here, crate::proofs::Free::held_further, crate::proofs::Free::held_nowhere))]
pub fn occurs_above(p: &PointerBlock<'_>, place: PlaceNo, v: u64) -> bool
    requires inside { place.0 < place_count p.now }
    requires used { all_ones v ≡ false }
    ensures { result ≡ occurs_above p.now place.0 v }
{
    let free = p.free().0;
    for k in not_held_to(p, place, v).0..free {
        if v == p.value(PlaceNo(k)) {
            return true;
        }
    }
    false
}

// The place from which on to look for the value: none between this one and that has it. Four at a time, since most places
// hold another value.
#[tactic(auto, using(crate::proofs::Free::four_without))]
fn not_held_to(p: &PointerBlock<'_>, place: PlaceNo, v: u64) -> PlaceNo
    requires { place.0 < place_count p.now }
    ensures { occurs_above p.now place.0 v ≡ member v (drop result.0 (places p.now)) }
{
    let free = p.free().0;
    let mut to = place.0 + 1;
    while to + 4 <= free && !held_in_four(p, PlaceNo(to), v) {
        to += 4;
    }
    PlaceNo(to)
}

// One of four places has the value.
#[tactic(auto, unfolding(walks::specs::Four::one_of_four))]
fn held_in_four(p: &PointerBlock<'_>, place: PlaceNo, v: u64) -> bool
    requires { place.0 + 4 ≤ place_count p.now }
    ensures { result ≡ one_of_four (λ k. eqb (place_value p.now k) v) place.0 }
{
    // So few places that the sums fit.
    let _ = p.count();
    (p.value(place) == v)
        | (p.value(PlaceNo(place.0 + 1)) == v)
        | (p.value(PlaceNo(place.0 + 2)) == v)
        | (p.value(PlaceNo(place.0 + 3)) == v)
}

// What a place adds to the boot order: its slot, if it is live and no higher place has the same value.
#[tactic(auto, using(crate::proofs::Free::live_used), unfolding(crate::specs::Inner::Added::added_at, crate::specs::Inner::Added::added))]
pub fn added_by(t: &Table<'_>, p: &PointerBlock<'_>, place: PlaceNo) -> Option<SlotNo>
    requires { place.0 < place_count p.now }
    ensures { result ≡ added_at (starts t.now) p.now place.0 }
{
    let v = p.value(place);
    match places::judge(t, v) {
        Place::Live(s) if !occurs_above(p, place, v) => Some(s),
        _ => None,
    }
}

// The dead places of a pointer block p by a table t as lines of the listing: its second part.
#![tactic(auto)]

ghost use Rattle.std.specs.Prelude.{◌≡◌};
ghost use Rattle.rules.specs.Lists.{any};
ghost use Rattle.rules.specs.Table.{starts};
ghost use Rattle.rules.specs.Pointers.{places as places_in, judged, is_dead};
ghost use Rattle.text.specs.Put.{Put};
ghost use Rattle.dead_places.specs.DeadLines.{numbered, judged_line, dead_part, place_line, kind_word};

use places::PointerBlock;
use rules::{Place, PlaceNo};
use slots::Table;

// Nothing where no place is dead.
pub fn put_dead(t: &Table<'_>, p: &PointerBlock<'_>, out: &mut [u8], at: usize) -> usize
    ensures { Put out.old at (dead_part (starts t.now) (places_in p.now))
        out.new result }
{
    if !any_dead(t, p) {
        return at;
    }
    let end = text::put_bytes(out, at, b"\nplace kind value\n");
    put_lines(t, p, out, end)
}

#[tactic(auto, using(crate::proofs::DeadPlaces::dead_here, crate::proofs::DeadPlaces::dead_above, crate::proofs::DeadPlaces::none_dead))]
fn any_dead(t: &Table<'_>, p: &PointerBlock<'_>) -> bool
    ensures { result ≡ any (λ v. is_dead (judged (starts t.now) v)) (places_in p.now) }
{
    for k in 0..p.count() {
        if is_dead(places::judge(t, p.value(PlaceNo(k)))) {
            return true;
        }
    }
    false
}

#[tactic(auto, unfolding(rules::specs::Pointers::is_dead))]
fn is_dead(place: Place) -> bool
    ensures { result ≡ is_dead place }
{
    matches!(place, Place::Spent | Place::PartWritten | Place::Stray(_))
}

// ---- the lines

// A line for each dead place, from place 0 up.
fn put_lines(t: &Table<'_>, p: &PointerBlock<'_>, out: &mut [u8], at: usize) -> usize
    ensures { Put out.old at
        (numbered (judged_line (starts t.now)) 0 (places_in p.now)) out.new result }
{
    let mut end = at;
    for k in 0..p.count() {
        let v = p.value(PlaceNo(k));
        end = put_line(PlaceNo(k), places::judge(t, v), v, out, end);
    }
    end
}

// The line of a place with this judgement and this value: none where it is not dead.
fn put_line(place: PlaceNo, judgement: Place, value: u64, out: &mut [u8], at: usize) -> usize
    ensures { Put out.old at (place_line place.0 judgement value) out.new result }
{
    if !is_dead(judgement) {
        return at;
    }
    let mut end = text::put_decimal(out, at, place.0 as u64);
    end = text::put_byte(out, end, b' ');
    end = put_kind(judgement, out, end);
    end = text::put_byte(out, end, b' ');
    end = text::put_decimal(out, end, value);
    text::put_byte(out, end, b'\n')
}

// The word of a dead place's kind.
#[tactic(auto, using(text::proofs::Puts::put_nothing), unfolding(crate::specs::DeadLines::kind_word))]
fn put_kind(judgement: Place, out: &mut [u8], at: usize) -> usize
    ensures { Put out.old at (kind_word judgement) out.new result }
{
    match judgement {
        Place::Spent => text::put_bytes(out, at, b"spent"),
        Place::PartWritten => text::put_bytes(out, at, b"part-written"),
        Place::Stray(_) => text::put_bytes(out, at, b"stray"),
        _ => at,
    }
}

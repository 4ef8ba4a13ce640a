// The lowest start of a new slot. A candidate that is refused names the next one: the end of an entry that it overlaps,
// or the next multiple of 4,096 where a place holds it. So the cost goes by entries and places, not by the image's length.
#![tactic(auto)]

ghost use Rattle.std.specs.Prelude.{◌≡◌, true, false, ◌+◌, ◌≤◌, ◌<◌};
ghost use Rattle.rules.specs.Lists.{member, all};
ghost use Rattle.rules.specs.Numbers.{longest};
ghost use Rattle.rules.specs.Table.{range_inside};
ghost use Rattle.rules.specs.Pointers.{places as place_values, all_ones};
ghost use Rattle.rules.specs.Commands.{lowest_start, size_right};
ghost use Rattle.rooms.specs.Inner.Candidates.{raised_by, raised, next_candidate, Placed};

use entries::{Entries, Entry};
use places::PointerBlock;
use rules::{EntryNo, PlaceNo};

// What addresses and lengths of slots are multiples of.
const UNIT: u64 = rules::BLOCK_SIZE as u64;

// The length of a new slot is a multiple of 4,096 and not 0.
#[tactic(auto, unfolding(rules::specs::Commands::size_right, rules::specs::Bytes::multiple))]
pub fn size_right(size: u64) -> bool
    ensures { result ≡ size_right size }
{
    (size != 0) & (size % UNIT == 0)
}

// The end of the entry where the range overlaps it; else the range's own start.
fn raised_by(e: &Entry<'_>, start: u64, size: u64) -> u64
    requires { ((e.now).start + (e.now).size ≤ longest)
        × ((start ≤ longest) × (size < 0x100000000)) }
    ensures { result ≡ raised_by size e.now start }
{
    let from = e.start();
    let end = from + e.size();
    if (start + size <= from) | (end <= start) {
        return start;
    }
    end
}

// One walk over the entries, in which the start is raised above each that its range overlaps.
fn raised(entries: &Entries<'_>, start: u64, size: u64) -> u64
    requires { (all (range_inside longest) entries.now ≡ true)
        × ((start ≤ longest) × (size < 0x100000000)) }
    ensures { result ≡ raised size entries.now start }
{
    let mut a = start;
    for i in 0..entries.len() {
        a = raised_by(&entries.get(EntryNo(i)), a, size);
    }
    a
}

// Some place holds the value, which is not that of an erased place.
fn held(p: &PointerBlock<'_>, v: u64) -> bool
    requires { all_ones v ≡ false }
    ensures { result ≡ member v (place_values p.now) }
{
    if p.count() == 0 {
        return false;
    }
    if v == p.value(PlaceNo(0)) {
        return true;
    }
    place_walks::occurs_above(p, PlaceNo(0), v)
}

// The candidate itself where it may be the start, else the next one.
fn next_candidate(entries: &Entries<'_>, p: &PointerBlock<'_>, a: u64, size: u64) -> u64
    requires { (all (range_inside longest) entries.now ≡ true)
        × ((a ≤ longest) × (size < 0x100000000)) }
    ensures { result ≡ next_candidate size entries.now (place_values p.now) a }
{
    let b = raised(entries, a, size);
    if b != a {
        return b;
    }
    if held(p, a) {
        return a + UNIT;
    }
    a
}

// The lowest multiple of 4,096 from which this many bytes fit into an image of a length, overlap none of the entries, and
// which no place holds; the image's length where there is none.
pub fn lowest_start(entries: &Entries<'_>, p: &PointerBlock<'_>, len: u64, size: u64) -> u64
    requires { Placed len entries.now × ((size_right size ≡ true) × (size < 0x100000000)) }
    ensures { result ≡ lowest_start 0 len entries.now (place_values p.now) size }
{
    // A `while`: its step is the next candidate, not the next number.
    let mut a = 0;
    while a + size <= len {
        let b = next_candidate(entries, p, a, size);
        if b == a {
            return a;
        }
        a = b;
    }
    len
}

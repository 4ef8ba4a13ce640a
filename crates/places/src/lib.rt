// A pointer block: whether it stands, the values of its places, and what a place holds by a table.
#![tactic(auto)]

ghost use Rattle.std.specs.Prelude.{◌≡◌, ◌+◌, ◌-◌, ◌*◌, ◌/◌, ◌≤◌, ◌<◌, length};
ghost use Rattle.rules.specs.Bytes.{block, block_size};
ghost use Rattle.rules.specs.Table.{starts};
ghost use Rattle.rules.specs.Pointers.{place_offset, place_count, offset_right, fits_room, pointers_stand, judged};
ghost use Rattle.places.specs.Inner.StandingPointers.{StandingPointers};
ghost use Rattle.places.specs.Inner.FreePlace.{free_from, HasFree};
ghost use Rattle.places.specs.Inner.Values.{place_value};

use rules::{Place, PlaceNo};
use slots::Table;
use std::marker::Model;

// The three named fields of a block that stands and are fixed: the magic, the header's size and the block's size.
const MAGIC: u64 = 0x57789609;

const HEADER_SIZE: u64 = 0x18;

const BLOCK_SIZE: u64 = rules::BLOCK_SIZE as u64;

// Where the places may begin, first and last: at a multiple of a pointer's size.
const FIRST_OFFSET: u64 = 0x20;

const LAST_OFFSET: u64 = BLOCK_SIZE - POINTER_SIZE;

const POINTER_SIZE: u64 = PLACE_LENGTH as u64;

// The bytes of a place.
pub const PLACE_LENGTH: usize = 8;

// The value of an erased place.
pub const ALL_ONES: u64 = 0xFFFF_FFFF_FFFF_FFFF;

// What a value's top byte counts.
const TOP_BYTE: u64 = 0x0100_0000_0000_0000;

// A lent pointer block that stands, with its free place: the lowest such that it and all above are erased, or the count.
#[derive(Clone, Drop)]
pub struct PointerBlock<'a> {
    bytes: &'a [u8],
    free: PlaceNo,
}

impl<'a> Model for PointerBlock<'a> {
    ghost use Rattle.std.specs.Prelude.{List, ℕ};
    ghost use Rattle.places.specs.Inner.FreePlace.{HasFree};

    ghost Value = { List ℕ };

    ghost view = { λ b. b.bytes.now };

    ghost invariant = { λ b. HasFree b.bytes.now b.free.0 };
}

impl<'a> PointerBlock<'a> {
    pub fn new(bytes: &'a [u8], free: PlaceNo) -> PointerBlock<'a>
        requires { HasFree bytes.now free.0 }
        ensures { result ≡ bytes.now }
    {
        PointerBlock { bytes, free }
    }

    pub fn bytes(&self) -> &'a [u8]
        ensures bytes { result.now ≡ self.now }
        ensures block { StandingPointers self.now }
    {
        self.bytes
    }

    // Where the places begin.
    #[tactic(auto, using(crate::proofs::Values::places_inside))]
    pub fn offset(&self) -> usize
        ensures offset { result ≡ place_offset self.now }
        ensures inside { place_offset self.now + 8 * place_count self.now ≤ block_size }
        ensures whole { length self.now ≡ block_size }
    {
        place_offset(self.bytes)
    }

    #[tactic(auto, using(crate::proofs::Values::few_places))]
    pub fn count(&self) -> usize
        ensures count { result ≡ place_count self.now }
        ensures few { result ≤ 508 }
    {
        place_count(self.bytes)
    }

    #[tactic(auto, using(crate::proofs::Values::free_within, crate::proofs::Values::few_places))]
    pub fn free(&self) -> PlaceNo
        ensures free { result.0 ≡ free_from self.now }
        ensures within { result.0 ≤ place_count self.now }
        ensures few { place_count self.now ≤ 508 }
    {
        self.free
    }

    // The value of a place.
    pub fn value(&self, place: PlaceNo) -> u64
        requires { place.0 < place_count self.now }
        ensures { result ≡ place_value self.now place.0 }
    {
        value_at(self.bytes, place)
    }
}

// The copy at an address of the image stands.
pub fn pointers_stand(image: &[u8], at: usize) -> bool
    requires { at + block_size ≤ length image.now }
    ensures { result ≡ pointers_stand (block image.now at) }
{
    block_stands(fields::block_at(image, at))
}

// The five named fields of a pointer block are right.
#[tactic(auto, unfolding(rules::specs::Pointers::pointers_stand, rules::specs::Pointers::place_offset, rules::specs::Pointers::place_count))]
pub fn block_stands(p: &[u8]) -> bool
    requires { length p.now ≡ block_size }
    ensures { result ≡ pointers_stand p.now }
{
    fields::number::<4>(p, 0x00) == MAGIC
        && fields::number::<4>(p, 0x04) == HEADER_SIZE
        && fields::number::<4>(p, 0x08) == BLOCK_SIZE
        && offset_right(fields::number::<4>(p, 0x10))
        && fits_room(fields::number::<4>(p, 0x10), fields::number::<4>(p, 0x14))
}

// A multiple of 8 from 0x20 to 4,088.
#[tactic(auto, unfolding(rules::specs::Pointers::offset_right, rules::specs::Bytes::multiple))]
fn offset_right(offset: u64) -> bool
    ensures { result ≡ offset_right offset }
{
    offset % POINTER_SIZE == 0 && FIRST_OFFSET <= offset && offset <= LAST_OFFSET
}

// A count from 1 up to the room left.
#[tactic(auto, unfolding(rules::specs::Pointers::fits_room))]
fn fits_room(offset: u64, count: u64) -> bool
    ensures { result ≡ fits_room offset count }
{
    1 <= count && count <= room_left(offset)
}

// How many places there is room for from an offset on; none past the block's end.
fn room_left(offset: u64) -> u64
    ensures { result ≡ (block_size - offset) / 8 }
{
    BLOCK_SIZE.saturating_sub(offset) / POINTER_SIZE
}

// ---- the places

#[tactic(auto, unfolding(rules::specs::Pointers::place_offset))]
pub fn place_offset(p: &[u8]) -> usize
    requires { StandingPointers p.now }
    ensures { result ≡ place_offset p.now }
{
    fields::number::<4>(p, 0x10) as usize
}

#[tactic(auto, unfolding(rules::specs::Pointers::place_count))]
pub fn place_count(p: &[u8]) -> usize
    requires { StandingPointers p.now }
    ensures { result ≡ place_count p.now }
{
    fields::number::<4>(p, 0x14) as usize
}

// The value of a place.
#[tactic(auto, using(crate::proofs::Values::places_inside), unfolding(crate::specs::Inner::Values::place_value))]
pub fn value_at(p: &[u8], place: PlaceNo) -> u64
    requires { StandingPointers p.now × (place.0 < place_count p.now) }
    ensures { result ≡ place_value p.now place.0 }
{
    fields::number::<8>(p, place_offset(p) + PLACE_LENGTH * place.0)
}

// ---- what a place holds

// What a place with this value holds, by a table.
#[tactic(auto, using(crate::proofs::Judged::judged_erased, crate::proofs::Judged::judged_spent, crate::proofs::Judged::judged_part_written, crate::proofs::Judged::judged_stray))]
pub fn judge(t: &Table<'_>, v: u64) -> Place
    ensures { result ≡ judged (starts t.now) v }
{
    match v {
        ALL_ONES => Place::Erased,
        0 => Place::Spent,
        _ => match slots::find_slot(t.entries(), v) {
            Some(e) => Place::Live(t.slot_at(e)),
            None if v / TOP_BYTE == 0xFF => Place::PartWritten,
            None => Place::Stray(v),
        },
    }
}

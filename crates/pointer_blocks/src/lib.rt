// A pointer block p made up anew by a table t, into the room lent for it: the order without a slot, or with it in front.
#![tactic(auto)]

ghost use Rattle.std.specs.Prelude.{◌≡◌, true, List, ℕ, [], ◌∷◌, ◌++◌, ◌≤◌, ◌<◌, length, get_or};
ghost use Rattle.rules.specs.Lists.{without};
ghost use Rattle.rules.specs.Bytes.{block_size};
ghost use Rattle.rules.specs.Table.{entries, slots, starts};
ghost use Rattle.rules.specs.Pointers.{place_count};
ghost use Rattle.rules.specs.Copies.{order_by};
ghost use Rattle.rules.specs.Commands.{filled, pointers_of, enough_places};
ghost use Rattle.pointer_blocks.specs.Inner.Packed.{Packed};

use blocks::tables;
use places::PointerBlock;
use rules::SlotNo;
use slots::Table;

// The pointers of the boot order without a slot, from lowest priority upward, the other places erased; and how many.
#[tactic(auto, using(crate::proofs::OrderPacked::order_in_entries, crate::proofs::OrderPacked::order_in_places, crate::proofs::OrderPacked::front_of_row))]
pub fn order_without(t: &Table<'_>, p: &PointerBlock<'_>, slot: SlotNo, room: &mut [u8]) -> usize
    requires { length room.old ≡ block_size }
    ensures { Packed p.now
        (pointers_of (starts t.now) (without slot.0 (order_by t.now p.now)))
        result room.new }
{
    // No more slots than entries, for which the row has room.
    let entries = t.entries().len();
    prove!(entries <= rules::MOST_ENTRIES);
    let mut row = [0; rules::MOST_ENTRIES];
    let len = boot_order::write_order(t, p, &mut row);
    pack_without(t, p, &row[..len], slot, room)
}

// The block has a place for each slot of the order with this one in front, as a block with a place for each entry has.
#[tactic(auto, using(crate::proofs::OrderPacked::enough_by_entries, crate::proofs::OrderPacked::enough_by_others, crate::proofs::OrderPacked::order_in_entries, crate::proofs::OrderPacked::front_of_row))]
pub fn enough_places(t: &Table<'_>, p: &PointerBlock<'_>, slot: SlotNo) -> bool
    requires { slot.0 < length (slots (entries t.now)) }
    ensures { result ≡ enough_places (starts t.now) p.now slot.0 }
{
    let entries = t.entries().len();
    if entries <= p.count() {
        return true;
    }
    prove!(entries <= rules::MOST_ENTRIES);
    let mut row = [0; rules::MOST_ENTRIES];
    let len = boot_order::write_order(t, p, &mut row);
    others(&row[..len], slot) < p.count()
}

// How many slots of an order are not this one.
#[tactic(auto, using(crate::proofs::OrderPacked::none_left, crate::proofs::OrderPacked::other_left, crate::proofs::OrderPacked::same_left))]
fn others(order: &[u32], slot: SlotNo) -> usize
    ensures { result ≡ length (without slot.0 order.now) }
{
    let mut count = 0;
    for other in order {
        if *other != slot.0 {
            count += 1;
        }
    }
    count
}

// The same with the slot, which starts there, in front of the order: its pointer is the last.
#[tactic(auto, using(crate::proofs::OrderPacked::place_left, crate::proofs::OrderPacked::pointers_first))]
pub fn order_with_first(
    t: &Table<'_>,
    p: &PointerBlock<'_>,
    slot: SlotNo,
    start: u64,
    room: &mut [u8],
)
    requires room { length room.old ≡ block_size }
    requires enough { enough_places (starts t.now) p.now slot.0 ≡ true }
    requires begins { start ≡ get_or (starts t.now) slot.0 0 }
    ensures { room.new ≡ filled p.now (pointers_of (starts t.now)
        (slot.0 ∷ without slot.0 (order_by t.now p.now))) }
{
    let others = order_without(t, p, slot, room);
    put_pointer(p, others, start, room);
}

// The pointers of an order without a slot, put from the order's end on, which has the lowest priority.
fn pack_without(
    t: &Table<'_>,
    p: &PointerBlock<'_>,
    order: &[u32],
    slot: SlotNo,
    room: &mut [u8],
) -> usize
    requires few { length order.now ≤ place_count p.now }
    requires room { length room.old ≡ block_size }
    ensures { Packed p.now (pointers_of (starts t.now) (without slot.0 order.now))
        result room.new }
{
    empty(p, room);
    let mut count = 0;
    for i in (0..order.len()).rev() {
        if order[i] != slot.0 {
            put_pointer(p, count, tables::slot_start(t, SlotNo(order[i])), room);
            count += 1;
        }
    }
    count
}

// A pointer after so many.
#[tactic(auto, using(crate::proofs::Putting::pointer_put))]
fn put_pointer(p: &PointerBlock<'_>, count: usize, start: u64, room: &mut [u8])
    requires few { count < place_count p.now }
    requires room { length room.old ≡ block_size }
    ensures put { (us : List ℕ) → count ≡ length us → room.old ≡ filled p.now us → room.new ≡ filled p.now (us ++ start ∷ []) }
    ensures length { length room.new ≡ block_size }
{
    fields::stores::store::<8>(room, p.offset() + 8 * count, start);
}

// The bytes outside the places as they were, the places erased.
fn empty(p: &PointerBlock<'_>, room: &mut [u8])
    requires { length room.old ≡ block_size }
    ensures { room.new ≡ filled p.now [] }
{
    let offset = p.offset();
    let end = offset + 8 * p.count();
    fields::stores::copy_block(room, 0, p.bytes());
    room[offset..end].fill(0xFF);
}

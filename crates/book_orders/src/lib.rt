// The boot order as the book keeps it: by value, with a slot first, without one, or with one gone.
#![tactic(auto)]

ghost use Rattle.std.specs.Prelude.{◌≡◌, ◌≤◌, cond, [], ◌∷◌, leb, length};
ghost use Rattle.rules.specs.Lists.{same, without};
ghost use Rattle.rules.specs.Book.{lowered};
ghost use Rattle.walks.specs.Entries.{most_entries};
ghost use Rattle.text.specs.Put.{Put};
ghost use Rattle.book_orders.specs.Orders.{room, no_slots, slots_of, kept};

use rules::SlotNo;

// A table has at most 127 slots, and one more may be put before them.
pub const ROOM: usize = 128;

// The slot numbers, first in the order first. Those past the count are not meant. No `ArrayVec`: orders are `Copy`, as the
// book that holds one is.
#[derive(Clone, Copy)]
pub struct Order {
    pub row: [u32; ROOM],
    pub count: usize,
}

// What becomes of the slots of an order: one is left out, or each number above that of a slot that is gone is one lower.
#[derive(Clone, Copy)]
pub enum Change {
    Without(SlotNo),
    Lowered(SlotNo),
}

#[tactic(auto, unfolding(crate::specs::Orders::no_slots))]
pub fn no_slots() -> [u32; ROOM]
    ensures { result ≡ no_slots }
{
    [0; ROOM]
}

impl Order {
    // Those that are meant.
    #[tactic(auto, unfolding(crate::specs::Orders::slots_of))]
    fn slots(&self) -> &[u32]
        ensures { (result.now ≡ slots_of self.now) × (length result.now ≤ room) }
    {
        &self.row[..self.count.min(ROOM)]
    }
}

// ---- into a row, from an index on: where that ends

fn put_slot(row: &mut [u32], at: usize, slot: SlotNo) -> usize
    ensures { Put row.old at (slot.0 ∷ []) row.new result }
{
    if at < row.len() {
        row[at] = slot.0;
        at + 1
    } else {
        at
    }
}

// A slot, unless it is the one to be left out.
fn put_other(row: &mut [u32], at: usize, slot: SlotNo, absent: SlotNo) -> usize
    ensures { Put row.old at (without absent.0 (slot.0 ∷ [])) row.new result }
{
    if absent.0 == slot.0 {
        at
    } else {
        put_slot(row, at, slot)
    }
}

// A slot's number once another slot is gone.
#[tactic(auto, unfolding(rules::specs::Book::lowered))]
fn lowered(slot: SlotNo, gone: SlotNo) -> SlotNo
    ensures { result.0 ≡ lowered gone.0 slot.0 }
{
    if gone.0 < slot.0 {
        SlotNo(slot.0 - 1)
    } else {
        slot
    }
}

// What becomes of one slot.
fn put_kept(row: &mut [u32], at: usize, slot: SlotNo, change: Change) -> usize
    ensures { Put row.old at (kept change (slot.0 ∷ [])) row.new result }
{
    match change {
        Change::Without(absent) => put_other(row, at, slot, absent),
        Change::Lowered(gone) => put_slot(row, at, lowered(slot, gone)),
    }
}

// What becomes of slots, in their order.
fn put_all_kept(row: &mut [u32], at: usize, slots: &[u32], change: Change) -> usize
    ensures { Put row.old at (kept change slots.now) row.new result }
{
    let mut end = at;
    for slot in slots {
        end = put_kept(row, end, SlotNo(*slot), change);
    }
    end
}

// ---- orders

// An order without a slot, or once another slot is gone.
pub fn changed(order: Order, change: Change) -> Order
    ensures { slots_of result ≡ kept change (slots_of order) }
{
    let mut row = no_slots();
    let count = put_all_kept(&mut row, 0, order.slots(), change);
    Order { row, count }
}

// The slot first, and then the others; the order as it was where it has more slots than a table.
pub fn with_first(order: Order, slot: SlotNo) -> Order
    ensures { slots_of result
        ≡ cond (leb (length (slots_of order)) most_entries) (slot.0 ∷ without slot.0 (slots_of order)) (slots_of order) }
{
    let slots = order.slots();
    if rules::MOST_ENTRIES < slots.len() {
        return order;
    }
    let mut row = no_slots();
    let at = put_slot(&mut row, 0, slot);
    let count = put_all_kept(&mut row, at, slots, Change::Without(slot));
    Order { row, count }
}

#[tactic(auto, using(walks::proofs::Pointwise::same_pointwise))]
pub fn same_order(a: Order, b: Order) -> bool
    ensures { result ≡ same (slots_of a) (slots_of b) }
{
    a.slots() == b.slots()
}

// The boot order by a table and a pointer block, without a store of the slots met: a walk from the free place down,
// above which nothing is added, until all slots are met. A live place is compared with those above it up to the first
// of its value; of one slot these stretches do not overlap, so that all of them together are places times slots at most.
#![tactic(auto)]

ghost use Rattle.std.specs.Prelude.{◌≡◌, ◌++◌, ◌≤◌, length, drop};
ghost use Rattle.rules.specs.Copies.{order_by};

use places::PointerBlock;
use rules::PlaceNo;
use slots::Table;

// How many slots the order has.
#[tactic(auto, using(crate::proofs::BootOrder::none_met, crate::proofs::BootOrder::none_more, crate::proofs::BootOrder::one_more, crate::proofs::BootOrder::counted_met, crate::proofs::BootOrder::counted_walked))]
pub fn order_length(t: &Table<'_>, p: &PointerBlock<'_>) -> usize
    ensures { result ≡ length (order_by t.now p.now) }
{
    let total = t.slot_total();
    let mut len = 0;
    for k in (0..p.free().0).rev() {
        if len == total {
            return len;
        }
        if let Some(_) = place_walks::added_by(t, p, PlaceNo(k)) {
            len += 1;
        }
    }
    len
}

// The order into the front of a row that has room for it, and its length.
pub fn write_order(t: &Table<'_>, p: &PointerBlock<'_>, row: &mut [u32]) -> usize
    requires { length (order_by t.now p.now) ≤ length row.old }
    ensures count { result ≡ length (order_by t.now p.now) }
    ensures written { row.new ≡ order_by t.now p.now
        ++ drop (length (order_by t.now p.now)) row.old }
{
    let total = t.slot_total();
    let mut at = 0;
    for k in (0..p.free().0).rev() {
        if at == total {
            return at;
        }
        if let Some(s) = place_walks::added_by(t, p, PlaceNo(k)) {
            row[at] = s.0;
            at += 1;
        }
    }
    at
}

// The boot order by a table and a pointer block, listed into a lent row, and refusal 13.
#![tactic(auto)]

ghost use Rattle.std.specs.Prelude.{◌≡◌, leb, length};
ghost use Rattle.rules.specs.Copies.{order_by};
ghost use Rattle.rules.specs.Readers.{order_in, row_after};
ghost use Rattle.order_lists.specs.Answers.{count_of};

use places::PointerBlock;
use rules::Refusal;
use slots::Table;

// The order listed into the row, and its length, or refused 13. Whether it fits is known before anything is stored.
#[tactic(auto, unfolding(rules::specs::Readers::order_in, rules::specs::Readers::row_after, rules::specs::Answers::unless))]
pub fn list_order(t: &Table<'_>, p: &PointerBlock<'_>, row: &mut [u32]) -> Result<usize, Refusal>
    ensures answer { result ≡ count_of (order_in (order_by t.now p.now) (length row.old)) }
    ensures written { row.new ≡ row_after (order_in (order_by t.now p.now) (length row.old)) row.old }
{
    if !has_room(t, p, row.len()) {
        return Err(Refusal::RowTooShort);
    }
    Ok(boot_order::write_order(t, p, row))
}

// There is room for the order. It has at most all slots, so that its length is worked out only where there is no room
// for them all.
#[tactic(auto, using(crate::proofs::Room::order_at_most))]
fn has_room(t: &Table<'_>, p: &PointerBlock<'_>, room: usize) -> bool
    ensures { result ≡ leb (length (order_by t.now p.now)) room }
{
    t.slot_total() <= room || boot_order::order_length(t, p) <= room
}

// Reading a flash: the table read, the boot order, the slots. Nothing here stores into an image.
#![tactic(auto)]

ghost use Rattle.std.specs.Prelude.{◌≡◌, length};
ghost use Rattle.rules.specs.Readers.{order_list, row_after, table_part, slot_count, slot_info, slot_name};
ghost use Rattle.order_lists.specs.Answers.{count_of};

use rules::{Refusal, Setting, SlotInfo, SlotNo};
use views::opened;

// The 4,096 bytes of the table copy read, as a part of the image; an empty part when refused.
#[tactic(auto, using(views::proofs::Opening::table_of_view, views::proofs::Opening::no_table))]
pub fn table_read(image: &[u8], setting: Setting) -> &[u8]
    ensures { result.now ≡ table_part setting image.now }
{
    match views::view(image, setting) {
        Ok(v) => fields::block_at(image, v.table),
        Err(_) => &image[..0],
    }
}

// The boot order's slot numbers into the front of the row, and how many there are, or a refusal, which leaves the row as it
// was.
#[tactic(auto, unfolding(rules::specs::Readers::order_list, rules::specs::Readers::row_after, rules::specs::Copies::boot_order))]
pub fn order_list(image: &[u8], setting: Setting, row: &mut [u32]) -> Result<usize, Refusal>
    ensures answer { result ≡ count_of (order_list setting image.now (length row.old)) }
    ensures written { row.new ≡ row_after
        (order_list setting image.now (length row.old)) row.old }
{
    let flash = opened::open(image, setting)?;
    order_lists::list_order(&flash.table(), &flash.pointers(), row)
}

// How many application slots the table read has.
#[tactic(auto, unfolding(rules::specs::Readers::slot_count))]
pub fn slot_count(image: &[u8], setting: Setting) -> Result<usize, Refusal>
    ensures { result ≡ slot_count setting image.now }
{
    let flash = opened::open(image, setting)?;
    Ok(flash.table().slot_total())
}

// The entry number, start, length and flags of a slot.
#[tactic(auto, unfolding(rules::specs::Readers::slot_info))]
pub fn slot_info(image: &[u8], setting: Setting, slot: SlotNo) -> Result<SlotInfo, Refusal>
    ensures { result ≡ slot_info setting image.now slot.0 }
{
    let flash = opened::open(image, setting)?;
    infos::slot::info_in(&flash.entries(), slot)
}

// The name of a slot up to its zero, as a part of the image; an empty part when refused.
#[tactic(auto, unfolding(rules::specs::Readers::slot_name), using(views::proofs::Opening::table_of_view, views::proofs::Opening::no_table, crate::proofs::Empty::no_slot_name))]
pub fn slot_name(image: &[u8], setting: Setting, slot: SlotNo) -> &[u8]
    ensures { result.now ≡ slot_name setting image.now slot.0 }
{
    match opened::open(image, setting) {
        Ok(flash) => infos::slot::name_in(&flash.entries(), slot),
        Err(_) => &image[..0],
    }
}

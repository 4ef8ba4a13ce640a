// The entries of the table read, slots or not, by their numbers.
ghost use Rattle.std.specs.Prelude.{◌≡◌};
ghost use Rattle.inspect.specs.Entries.{entry_total, entry_info, entry_name};

use rules::{EntryNo, Refusal, Setting, SlotInfo};
use views::opened;

// Refusals 1, 2, 3, 50, 51 and 5, or how many entries there are.
#[tactic(auto, unfolding(crate::specs::Entries::entry_total))]
pub fn entry_total(image: &[u8], setting: Setting) -> Result<usize, Refusal>
    ensures { result ≡ entry_total setting image.now }
{
    let flash = opened::open(image, setting)?;
    Ok(entries::entry_count(fields::block_at(flash.image, flash.view.table)))
}

// Refusals 1, 2, 3, 50, 51, 5 and 92, or the number, start, length and flags of an entry.
#[tactic(auto, unfolding(crate::specs::Entries::entry_info))]
pub fn entry_info(image: &[u8], setting: Setting, entry: EntryNo) -> Result<SlotInfo, Refusal>
    ensures { result ≡ entry_info setting image.now entry.0 }
{
    let flash = opened::open(image, setting)?;
    infos::entry::info_in(&flash.entries(), entry)
}

// The name of an entry up to its zero, as a part of the image; an empty part when refused.
#[tactic(auto, unfolding(crate::specs::Entries::entry_name), using(views::proofs::Opening::table_of_view, views::proofs::Opening::no_table, crate::proofs::EntryNames::no_entry_name))]
pub fn entry_name(image: &[u8], setting: Setting, entry: EntryNo) -> &[u8]
    ensures { result.now ≡ entry_name setting image.now entry.0 }
{
    match opened::open(image, setting) {
        Ok(flash) => infos::entry::name_in(&flash.entries(), entry),
        Err(_) => &image[..0],
    }
}

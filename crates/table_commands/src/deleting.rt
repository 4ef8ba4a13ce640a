// Delete, once the view of the flash is known.
ghost use Rattle.std.specs.Prelude.{◌≡◌, IfOk, length};
ghost use Rattle.rules.specs.Bytes.{block_size};
ghost use Rattle.rules.specs.Commands.{delete};
ghost use Rattle.drafts.specs.JobFor.{job_by};
ghost use Rattle.drafts.specs.Inner.Drafted.{job_of, Sound};

use blocks::{made, tables};
use drafts::Draft;
use rules::{Refusal, SlotNo};
use views::opened::Opened;

// Refusals 6, 7 and 43, or the job of delete: a slot that a place gives is in the boot order.
#[tactic(auto, unfolding(rules::specs::Answers::unless), using(drafts::proofs::Asking::delete_asked, drafts::proofs::Asking::row_found, drafts::proofs::Locating::tables_fit))]
pub fn delete_by(flash: &Opened<'_>, slot: SlotNo, room: &mut [u8]) -> Result<Draft, Refusal>
    requires { length room.old ≡ block_size }
    ensures job { job_of flash.now.image.now room.new result
        ≡ job_by flash.now.setting flash.now.image.now flash.now.view (delete slot.0) }
    ensures sound { IfOk result (λ d. Sound flash.now.image.now d) }
{
    drafts::refusals::ask_slot(flash, slot)?;
    let t = flash.table();
    let p = flash.pointers();
    let start = tables::slot_start(&t, slot);
    let found = place_lists::places_giving(&t, &p, slot, start);
    if found.count != 0 {
        return Err(Refusal::IsInOrder);
    }
    let row = t.row_of(slot).unwrap();
    let to = made::target(
        flash.image.len(),
        flash.setting.granule,
        flash.view.spt0,
        flash.view.spt1,
    );
    table_rows::put_without_row(t.bytes(), row, room);
    Ok(Draft::Rewritten(made::pair_plan(to)))
}

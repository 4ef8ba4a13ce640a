// Rename, once the view of the flash is known.
ghost use Rattle.std.specs.Prelude.{◌≡◌, IfOk, ◌≤◌, ◌<◌, cond, length, get_or};
ghost use Rattle.rules.specs.Bytes.{block_size, up_to_zero};
ghost use Rattle.rules.specs.Table.{entries, has_name, no_entry};
ghost use Rattle.rules.specs.Commands.{put_name, rename};
ghost use Rattle.walks.specs.Entries.{most_entries};
ghost use Rattle.blocks.specs.Made.{no_steps, pair_rewritten};
ghost use Rattle.drafts.specs.JobFor.{job_by};
ghost use Rattle.drafts.specs.Inner.Drafted.{job_of, Sound, Means};

use super::is_free;
use blocks::{Target, made, tables};
use drafts::Draft;
use rules::{EntryNo, Refusal, SlotNo};
use slots::Table;
use views::opened::Opened;

// Refusals 6, 7, 9 and 10, or the job of rename.
#[tactic(auto, unfolding(rules::specs::Answers::unless), using(drafts::proofs::Asking::rename_asked, drafts::proofs::Asking::row_found, drafts::proofs::Locating::tables_fit, crate::proofs::NewAsked::short_if_allowed))]
pub fn rename_by(
    flash: &Opened<'_>,
    slot: SlotNo,
    name: &[u8],
    room: &mut [u8],
) -> Result<Draft, Refusal>
    requires { length room.old ≡ block_size }
    ensures job { job_of flash.now.image.now room.new result
        ≡ job_by flash.now.setting flash.now.image.now flash.now.view (rename slot.0 name.now) }
    ensures sound { IfOk result (λ d. Sound flash.now.image.now d) }
{
    drafts::refusals::ask_slot(flash, slot)?;
    if !tables::name_allowed(name) {
        return Err(Refusal::NameNotAllowed);
    }
    let t = flash.table();
    let row = t.row_of(slot).unwrap();
    if !is_free(t.entries(), row, name) {
        return Err(Refusal::NameTaken);
    }
    let to = made::target(
        flash.image.len(),
        flash.setting.granule,
        flash.view.spt0,
        flash.view.spt1,
    );
    Ok(rename_job(&t, row, name, to, room))
}

// The job, by the table read and the entry of the slot: no steps where it has the name already.
fn rename_job(t: &Table<'_>, row: EntryNo, name: &[u8], to: Target, room: &mut [u8]) -> Draft
    requires row { row.0 < length (entries t.now) }
    requires few { length (entries t.now) ≤ most_entries }
    requires name { length name.now ≤ 16 }
    requires room { length room.old ≡ block_size }
    ensures { Means room.new result
        (cond (has_name (up_to_zero name.now) (get_or (entries t.now) row.0 no_entry))
        (no_steps to.len to.granule)
        (pair_rewritten to.len to.granule to.at0 to.at1
        (put_name t.now row.0 name.now))) }
{
    if t.entries().get(row).has_name(name) {
        return Draft::NoSteps(made::no_plan(to));
    }
    tables::put_name(t.bytes(), row, name, room);
    Draft::Rewritten(made::pair_plan(to))
}

// Disable, once the view of the flash is known.
ghost use Rattle.std.specs.Prelude.{◌≡◌, IfOk, length, get_or};
ghost use Rattle.rules.specs.Bytes.{block_size};
ghost use Rattle.rules.specs.Table.{starts};
ghost use Rattle.rules.specs.Commands.{disable};
ghost use Rattle.blocks.specs.Made.{place_list};
ghost use Rattle.place_lists.specs.Inner.Walked.{places_giving};
ghost use Rattle.drafts.specs.JobFor.{disable_job, job_by};
ghost use Rattle.drafts.specs.Inner.Drafted.{job_of, Sound, Means};

use blocks::{PlaceList, Target, made, tables};
use drafts::Draft;
use places::PointerBlock;
use rules::{Refusal, SlotNo};
use slots::Table;
use views::opened::Opened;

// Refusals 6 to 8, or the job of disable: a slot that no place gives is not in the boot order.
#[tactic(auto, unfolding(rules::specs::Answers::unless), using(drafts::proofs::Asking::disable_asked, drafts::proofs::Locating::pointers_fit))]
pub fn disable_by(flash: &Opened<'_>, slot: SlotNo, room: &mut [u8]) -> Result<Draft, Refusal>
    requires { length room.old ≡ block_size }
    ensures job { job_of flash.now.image.now room.new result
        ≡ job_by flash.now.setting flash.now.image.now flash.now.view (disable slot.0) }
    ensures sound { IfOk result (λ d. Sound flash.now.image.now d) }
{
    drafts::refusals::ask_slot(flash, slot)?;
    let t = flash.table();
    let p = flash.pointers();
    let start = tables::slot_start(&t, slot);
    let found = place_lists::places_giving(&t, &p, slot, start);
    if found.count == 0 {
        return Err(Refusal::NotInOrder);
    }
    let to = made::target(
        flash.image.len(),
        flash.setting.granule,
        flash.view.cpb0,
        flash.view.cpb1,
    );
    Ok(disable_job(&t, &p, to, slot, start, found, room))
}

// The job, by the places that give the slot: they are cleared, or both copies rewritten.
fn disable_job(
    t: &Table<'_>,
    p: &PointerBlock<'_>,
    to: Target,
    slot: SlotNo,
    start: u64,
    found: PlaceList,
    room: &mut [u8],
) -> Draft
    requires begins { start ≡ get_or (starts t.now) slot.0 0 }
    requires found { found ≡ place_list (places_giving t.now p.now slot.0) }
    requires room { length room.old ≡ block_size }
    ensures { Means room.new result
        (disable_job to.len to.granule to.at0 to.at1 (starts t.now) p.now slot.0) }
{
    // A start half cleared that names another slot must not be left by a cut.
    if tables::half_cleared_names(t.entries(), start) {
        pointer_blocks::order_without(t, p, slot, room);
        return Draft::Rewritten(made::pair_plan(to));
    }
    drafts::into_places(to, p.offset() as u32, found, 0, room)
}

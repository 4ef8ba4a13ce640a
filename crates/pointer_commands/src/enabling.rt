// Enable, once the view of the flash is known.
ghost use Rattle.std.specs.Prelude.{◌≡◌, true, IfOk, length, get_or};
ghost use Rattle.rules.specs.Bytes.{block_size};
ghost use Rattle.rules.specs.Table.{starts};
ghost use Rattle.rules.specs.Commands.{enough_places, enable};
ghost use Rattle.drafts.specs.JobFor.{enable_job, job_by};
ghost use Rattle.drafts.specs.Inner.Drafted.{job_of, Sound, Means};

use blocks::{Target, made, tables};
use drafts::Draft;
use places::PointerBlock;
use rules::{Refusal, SlotNo};
use slots::Table;
use views::opened::Opened;

// Refusals 6, 7, 14 and 15, or the job of enable.
#[tactic(auto, unfolding(rules::specs::Answers::unless), using(drafts::proofs::Asking::enable_asked, drafts::proofs::Asking::slot_counted, drafts::proofs::Asking::begins_inside, drafts::proofs::Locating::pointers_fit))]
pub fn enable_by(flash: &Opened<'_>, slot: SlotNo, room: &mut [u8]) -> Result<Draft, Refusal>
    requires { length room.old ≡ block_size }
    ensures job { job_of flash.now.image.now room.new result
        ≡ job_by flash.now.setting flash.now.image.now flash.now.view (enable slot.0) }
    ensures sound { IfOk result (λ d. Sound flash.now.image.now d) }
{
    drafts::refusals::ask_slot(flash, slot)?;
    let t = flash.table();
    let start = tables::slot_start(&t, slot);
    if copies::is_erased(flash.image, start as usize) {
        return Err(Refusal::SlotEmpty);
    }
    let p = flash.pointers();
    if !pointer_blocks::enough_places(&t, &p, slot) {
        return Err(Refusal::NoPlaceLeft);
    }
    let to = made::target(
        flash.image.len(),
        flash.setting.granule,
        flash.view.cpb0,
        flash.view.cpb1,
    );
    Ok(enable_job(&t, &p, to, slot, start, room))
}

// The job, by where the slot starts: no steps, one place in both copies, or both copies rewritten.
fn enable_job(
    t: &Table<'_>,
    p: &PointerBlock<'_>,
    to: Target,
    slot: SlotNo,
    start: u64,
    room: &mut [u8],
) -> Draft
    requires enough { enough_places (starts t.now) p.now slot.0 ≡ true }
    requires begins { start ≡ get_or (starts t.now) slot.0 0 }
    requires room { length room.old ≡ block_size }
    ensures { Means room.new result
        (enable_job to.len to.granule to.at0 to.at1 (starts t.now) p.now slot.0) }
{
    if place_lists::comes_first(t, p, slot) {
        return Draft::NoSteps(made::no_plan(to));
    }
    let free = p.free();
    if free.0 < p.count() {
        let one = place_lists::one_place(free);
        return drafts::into_places(to, p.offset() as u32, one, start, room);
    }
    pointer_blocks::order_with_first(t, p, slot, start, room);
    Draft::Rewritten(made::pair_plan(to))
}

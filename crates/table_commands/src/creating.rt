// Create, once the view of the flash is known.
ghost use Rattle.std.specs.Prelude.{◌≡◌, true, not, IfOk, length};
ghost use Rattle.rules.specs.Bytes.{block_size};
ghost use Rattle.rules.specs.Lists.{any};
ghost use Rattle.rules.specs.Table.{has_name};
ghost use Rattle.rules.specs.Commands.{create, name_allowed};
ghost use Rattle.drafts.specs.JobFor.{job_by};
ghost use Rattle.drafts.specs.Inner.Asked.{new_asked};
ghost use Rattle.drafts.specs.Inner.Drafted.{job_of, Sound};

use super::is_free;
use blocks::{made, tables};
use drafts::Draft;
use entries::Entries;
use rules::{EntryNo, Refusal};
use views::opened::Opened;

// Refusals 6, 9, 10, 40 and 41: both pairs agree, the name may be given and no entry has it, the length is right, and a
// row is left.
#[tactic(auto, unfolding(drafts::specs::Inner::Asked::new_asked, rules::specs::Answers::unless), using(crate::proofs::NewAsked::count_of_entries))]
fn ask_new(flash: &Opened<'_>, name: &[u8], size: u64) -> Result<(), Refusal>
    ensures { result ≡ new_asked flash.now.image.now flash.now.view name.now size }
{
    if !drafts::refusals::copies_equal(flash) {
        return Err(Refusal::CopiesDiffer);
    }
    if !tables::name_allowed(name) {
        return Err(Refusal::NameNotAllowed);
    }
    let entries = flash.entries();
    if !is_new(&entries, name) {
        return Err(Refusal::NameTaken);
    }
    if !rooms::size_right(size) {
        return Err(Refusal::LengthWrong);
    }
    if rules::MOST_ENTRIES <= entries.len() {
        return Err(Refusal::NoRowLeft);
    }
    Ok(())
}

// No entry has the name, which may be given.
#[tactic(auto, using(crate::proofs::NewAsked::free_of_all))]
fn is_new(entries: &Entries<'_>, name: &[u8]) -> bool
    requires { name_allowed name.now ≡ true }
    ensures { result ≡ not (any (has_name name.now) entries.now) }
{
    is_free(entries, EntryNo(entries.len()), name)
}

// These, then 42, or the job of create: the lowest start, and the table with the new row.
#[tactic(auto, unfolding(rules::specs::Answers::unless), using(crate::proofs::NewAsked::create_asked, drafts::proofs::Locating::tables_fit, crate::proofs::NewAsked::placed))]
pub fn create_by(
    flash: &Opened<'_>,
    name: &[u8],
    size: u32,
    room: &mut [u8],
) -> Result<Draft, Refusal>
    requires { length room.old ≡ block_size }
    ensures job { job_of flash.now.image.now room.new result
        ≡ job_by flash.now.setting flash.now.image.now flash.now.view (create name.now size) }
    ensures sound { IfOk result (λ d. Sound flash.now.image.now d) }
{
    let long = size as u64;
    ask_new(flash, name, long)?;
    let p = flash.pointers();
    let len = flash.image.len() as u64;
    let start = rooms::lowest_start(&flash.entries(), &p, len, long);
    if len <= start {
        return Err(Refusal::NoStart);
    }
    let to = made::target(
        flash.image.len(),
        flash.setting.granule,
        flash.view.spt0,
        flash.view.spt1,
    );
    let t = fields::block_at(flash.image, flash.view.table);
    table_rows::put_new_row(t, name, start, long, room);
    Ok(Draft::Rewritten(made::pair_plan(to)))
}

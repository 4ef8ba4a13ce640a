// Repair, once the view of the flash is known: the copy not read is rewritten from the copy read.
#![tactic(auto)]

ghost use Rattle.std.specs.Prelude.{◌≡◌, List, ℕ, cond, eqb};
ghost use Rattle.rules.specs.Answers.{given};
ghost use Rattle.rules.specs.Commands.{repair};
ghost use Rattle.drafts.specs.JobFor.{job_by};
ghost use Rattle.drafts.specs.Inner.Drafted.{drafted, Sound};

use blocks::made;
use drafts::Draft;
use views::opened::Opened;

// The address of the copy that is not read.
fn other_copy(read: usize, a0: usize, a1: usize) -> usize
    ensures { result ≡ cond (eqb read a0) a1 a0 }
{
    if read == a0 { a1 } else { a0 }
}

// SPT pair, then CPB pair: where its copies differ, the copy not read is rewritten from the copy read.
pub fn repair_by(flash: &Opened<'_>) -> Draft
    ensures job { (room : List ℕ) → given (drafted flash.now.image.now room result)
        ≡ job_by flash.now.setting flash.now.image.now flash.now.view repair }
    ensures sound { Sound flash.now.image.now result }
{
    let v = flash.view;
    let table_at = other_copy(v.table, v.spt0, v.spt1) as u32;
    let pointers_at = other_copy(v.pointers, v.cpb0, v.cpb1) as u32;
    let plan = made::rewrites_plan(
        flash.image.len(),
        flash.setting.granule,
        !copies::same_blocks(flash.image, v.spt0, v.spt1),
        table_at,
        !copies::same_blocks(flash.image, v.cpb0, v.cpb1),
        pointers_at,
    );
    Draft::Repaired(plan, v.table, v.pointers)
}

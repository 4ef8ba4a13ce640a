// Where things are on a flash, and which copies are read. Nothing here stores into an image.
#![tactic(auto)]

pub mod opened; // the table read and the pointer block read
mod copies_read; // which copy of the table and of the pointer block is read, and refusals 50, 51 and 5

ghost use Rattle.std.specs.Prelude.{◌≡◌, IfOk};
ghost use Rattle.rules.specs.Copies.{view};
ghost use Rattle.rules.specs.Readers.{table_faults};
ghost use Rattle.views.specs.Located.{Located};

use rules::{Refusal, Setting, TableFaults, View};

// Refusals 1, 2, 3, 50 or 51, and 5, or where things are and which copies are read.
#[tactic(auto, using(crate::proofs::Views::view_asked, crate::proofs::Seen::none_due_inside, crate::proofs::Seen::read_followed, crate::proofs::Opening::viewed_located))]
pub fn view(image: &[u8], setting: Setting) -> Result<View, Refusal>
    ensures value { result ≡ view setting image.now }
    ensures inside { IfOk result (λ v. Located image.now v) }
{
    bounds::due(setting, image.len())?;
    let at = copies_read::table_read(image, setting)?;
    copies_read::view_through(image, setting, at)
}

// The first broken rule of each table copy, and the entry that breaks it: refused 1 to 3 only. A copy that stands has
// none.
#[tactic(auto, using(crate::proofs::Views::faults_asked, crate::proofs::Seen::none_due_inside))]
pub fn table_faults(image: &[u8], setting: Setting) -> Result<TableFaults, Refusal>
    ensures { result ≡ table_faults setting image.now }
{
    bounds::due(setting, image.len())?;
    Ok(copies_read::both_faults(image, setting))
}

// The commands that change the table, once the view of the flash is known.
#![tactic(auto)]

pub mod renaming; // rename, and refusals 9 and 10
pub mod creating; // create, and refusals 40 to 42
pub mod deleting; // delete, and refusal 43

ghost use Rattle.std.specs.Prelude.{◌≡◌, true};
ghost use Rattle.rules.specs.Commands.{name_allowed, name_free};

use blocks::tables;
use entries::Entries;
use rules::EntryNo;

// No entry other than this one has the name, which may be given.
#[tactic(auto, using(crate::proofs::NewAsked::whole_if_allowed))]
fn is_free(entries: &Entries<'_>, e: EntryNo, name: &[u8]) -> bool
    requires { name_allowed name.now ≡ true }
    ensures { result ≡ name_free entries.now e.0 name.now }
{
    tables::name_free(entries, e, name)
}

// Rule 4: the first entry with the name of an earlier one.
ghost use Rattle.std.specs.Prelude.{[]};
ghost use Rattle.rules.specs.Lists.{first_clash};
ghost use Rattle.rules.specs.Table.{names_differ};
ghost use Rattle.entries.specs.Tests.{Found};

use super::each;
use entries::Entries;
use entry_tests::naming;
use rules::EntryNo;

// The first entry that has the name of an earlier one. Where each is followed by zeros alone, as they mostly are, its
// field is compared as it stands.
pub fn first_same(entries: &Entries<'_>) -> Option<EntryNo>
    ensures { Found entries.now (first_clash names_differ [] entries.now) result }
{
    if entries.all(|e| naming::name_is_padded(e)) {
        return each::first_clash(entries, |d, e| naming::fields_differ(d, e), EntryNo(0));
    }
    each::first_clash(entries, |d, e| naming::names_differ(d, e), EntryNo(0))
}

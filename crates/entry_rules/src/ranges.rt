// Rule 7: the first entry whose range overlaps that of an earlier one.
ghost use Rattle.std.specs.Prelude.{◌≡◌, true, [], ◌≤◌, length};
ghost use Rattle.rules.specs.Lists.{first_clash};
ghost use Rattle.rules.specs.Table.{ranges_apart};
ghost use Rattle.entries.specs.Tests.{Found};
ghost use Rattle.entry_rules.specs.Inner.Ascending.{ascend};

use super::each;
use entries::Entries;
use entry_tests::ranges;
use rules::EntryNo;

// As many of the first ranges as ascend: each ends before the next begins.
fn ascending(entries: &Entries<'_>) -> usize
    ensures { (result ≤ length entries.now) × (ascend entries.now result ≡ true) }
{
    for i in 1..entries.len() {
        if !ranges::ends_before(&entries.get(EntryNo(i - 1)), &entries.get(EntryNo(i))) {
            return i;
        }
    }
    entries.len()
}

// The first entry whose range overlaps that of an earlier one. As long as they ascend, as they mostly do, none does; from
// there on each is compared with the earlier ones.
pub fn first_overlap(entries: &Entries<'_>) -> Option<EntryNo>
    ensures { Found entries.now (first_clash ranges_apart [] entries.now) result }
{
    let count = ascending(entries);
    each::first_clash(
        entries,
        |d, e| ranges::ranges_are_apart(d, e),
        EntryNo(count),
    )
}

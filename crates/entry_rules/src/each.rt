// The first entry that does not keep a rule which is lent as a test, by itself or with an earlier one.
ghost use Rattle.std.specs.Prelude.{◌≡◌, ◌+◌, ◌≤◌, ◌<◌, length, get_or, drop};
ghost use Rattle.rules.specs.Lists.{all, first_failing, first_clash};
ghost use Rattle.rules.specs.Table.{no_entry};
ghost use Rattle.entries.specs.Tests.{Decides, Found};
ghost use Rattle.entry_rules.specs.Inner.Rules.{DecidesPairs, entries_before};

use entries::{Entries, Entry};
use rules::EntryNo;

// The first entry that does not keep a rule.
pub fn first_failing<F: Fn(&Entry<'_>) -> bool>(entries: &Entries<'_>, keeps: F) -> Option<EntryNo>
    requires { F.IsAlwaysCallable keeps }
    ensures { (p : _) → Decides F.Fn keeps p entries.now
        → Found entries.now (first_failing p entries.now) result }
{
    for i in 0..entries.len() {
        if !keeps(&entries.get(EntryNo(i))) {
            return Some(EntryNo(i));
        }
    }
    None
}

// The first entry, from one on, that does not keep a rule with an earlier one.
pub fn first_clash<F: Fn(&Entry<'_>, &Entry<'_>) -> bool>(
    entries: &Entries<'_>,
    keep: F,
    from: EntryNo,
) -> Option<EntryNo>
    requires callable { F.IsAlwaysCallable keep }
    requires within { from.0 ≤ length entries.now }
    ensures { (p : _) → DecidesPairs F.Fn keep p entries.now
        → Found entries.now
        (from.0 + first_clash p (entries_before entries.now from.0) (drop from.0 entries.now)) result }
{
    for i in from.0..entries.len() {
        if !earlier_keep(entries, &keep, EntryNo(i)) {
            return Some(EntryNo(i));
        }
    }
    None
}

// An entry keeps the rule with each earlier one.
fn earlier_keep<F: Fn(&Entry<'_>, &Entry<'_>) -> bool>(
    entries: &Entries<'_>,
    keep: &F,
    e: EntryNo,
) -> bool
    requires callable { F.IsAlwaysCallable keep.now }
    requires within { e.0 < length entries.now }
    ensures { (p : _) → DecidesPairs F.Fn keep.now p entries.now
        → result ≡ all (λ d. p d (get_or entries.now e.0 no_entry)) (entries_before entries.now e.0) }
{
    let this = entries.get(e);
    for k in 0..e.0 {
        if !keep(&entries.get(EntryNo(k)), &this) {
            return false;
        }
    }
    true
}

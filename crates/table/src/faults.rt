// The first of rules 3 to 11 that the entries of a table copy break, and the entry that breaks it.
ghost use Rattle.std.specs.Prelude.{◌≡◌, true, ◌<◌, is_some, IfSome};
ghost use Rattle.rules.specs.Answers.{broken};
ghost use Rattle.rules.specs.Lists.{pairwise, first_failing};
ghost use Rattle.rules.specs.Table.{names_differ, six_named, named, boot_info, spt0_name, spt1_name, cpb0_name, cpb1_name};
ghost use Rattle.rules.specs.Table.{boot_info_right, table_as_told, block_on_granules, entries_fault};
ghost use Rattle.entries.specs.Tests.{Found};
ghost use Rattle.table.specs.Inner.Six.{six_fault};

use entries::{Entries, Entry};
use entry_rules::each;
use entry_tests::{named, naming, ranges};
use rules::{EntryNo, Fault, Setting, TableRule};

// Told where a rule is about no entry by itself.
pub const NO_ENTRY: usize = 127;

// Rules 3 to 7, then the rest.
pub fn entries_fault(entries: &Entries<'_>, len: u64, setting: Setting) -> Option<Fault>
    requires { 0 < setting.granule }
    ensures { result ≡ entries_fault setting len entries.now }
{
    if let Some(e) = each::first_failing(entries, |e| naming::name_is_right(e)) {
        return broken_at(TableRule::NameRight, e);
    }
    if let Some(e) = entry_rules::naming::first_same(entries) {
        return broken_at(TableRule::NamesDiffer, e);
    }
    if let Some(e) = each::first_failing(entries, |e| ranges::range_is_aligned(e)) {
        return broken_at(TableRule::RangeAligned, e);
    }
    if let Some(e) = each::first_failing(entries, |e| ranges::range_is_inside(e, len)) {
        return broken_at(TableRule::RangeInside, e);
    }
    if let Some(e) = entry_rules::ranges::first_overlap(entries) {
        return broken_at(TableRule::RangesApart, e);
    }
    six_fault(entries, setting)
}

// Rules 8 to 11, of entries whose names differ. Each of the six is looked up once, and an entry that breaks a rule only where
// the one of that name does.
fn six_fault(entries: &Entries<'_>, setting: Setting) -> Option<Fault>
    requires granule { 0 < setting.granule }
    requires names { pairwise names_differ entries.now ≡ true }
    ensures { result ≡ six_fault setting entries.now }
{
    let fixed = match fixed_entries(entries) {
        Some(fixed) => fixed,
        None => return broken_at(TableRule::SixNamed, EntryNo(NO_ENTRY)),
    };
    if let Some(e) = boot_info_fault(entries, &fixed.boot) {
        return broken_at(TableRule::BootInfoAtZero, e);
    }
    if let Some(e) = tables_fault(entries, &fixed.table0, &fixed.table1, setting) {
        return broken_at(TableRule::TablesAsTold, e);
    }
    if let Some(e) = blocks_fault(entries, &fixed, setting) {
        return broken_at(TableRule::BlocksOnGranules, e);
    }
    None
}

// The entries of the fixed names that rules 9 to 11 judge.
#[derive(Drop)]
struct Fixed<'a> {
    boot: Entry<'a>,
    table0: Entry<'a>,
    table1: Entry<'a>,
    pointers0: Entry<'a>,
    pointers1: Entry<'a>,
}

// Rule 8: they are there, and so is the factory image.
#[tactic(auto, unfolding(rules::specs::Table::six_named, rules::specs::Table::six_names, rules::specs::Table::boot_info, rules::specs::Table::factory_image, rules::specs::Table::spt0_name, rules::specs::Table::spt1_name, rules::specs::Table::cpb0_name, rules::specs::Table::cpb1_name, rules::specs::Bytes::up_to_zero, rules::specs::Lists::all))]
fn fixed_entries<'a>(entries: &Entries<'a>) -> Option<Fixed<'a>>
    ensures there { is_some result ≡ six_named entries.now }
    ensures boot { IfSome result (λ f. f.boot ≡ named boot_info entries.now) }
    ensures table0 { IfSome result (λ f. f.table0 ≡ named spt0_name entries.now) }
    ensures table1 { IfSome result (λ f. f.table1 ≡ named spt1_name entries.now) }
    ensures pointers0 { IfSome result (λ f. f.pointers0 ≡ named cpb0_name entries.now) }
    ensures pointers1 { IfSome result (λ f. f.pointers1 ≡ named cpb1_name entries.now) }
{
    let boot = entries.named(&names::BOOT_INFO)?;
    let _factory = entries.named(&names::FACTORY_IMAGE)?;
    let table0 = entries.named(&names::SPT0)?;
    let table1 = entries.named(&names::SPT1)?;
    let pointers0 = entries.named(&names::CPB0)?;
    let pointers1 = entries.named(&names::CPB1)?;
    Some(Fixed {
        boot,
        table0,
        table1,
        pointers0,
        pointers1,
    })
}

// Rule 9.
fn boot_info_fault(entries: &Entries<'_>, boot: &Entry<'_>) -> Option<EntryNo>
    requires named { boot.now ≡ named boot_info entries.now }
    requires six { six_named entries.now ≡ true }
    requires names { pairwise names_differ entries.now ≡ true }
    ensures { Found entries.now (first_failing boot_info_right entries.now) result }
{
    if boot.start() == 0 {
        return None;
    }
    each::first_failing(entries, |e| named::boot_info_is_right(e))
}

// Rule 10.
fn tables_fault(
    entries: &Entries<'_>,
    table0: &Entry<'_>,
    table1: &Entry<'_>,
    setting: Setting,
) -> Option<EntryNo>
    requires first { table0.now ≡ named spt0_name entries.now }
    requires second { table1.now ≡ named spt1_name entries.now }
    requires six { six_named entries.now ≡ true }
    requires names { pairwise names_differ entries.now ≡ true }
    ensures { Found entries.now (first_failing (table_as_told setting) entries.now) result }
{
    let spt0 = setting.spt0 as u64;
    let spt1 = setting.spt1 as u64;
    if (table0.start() == spt0) & (table1.start() == spt1) {
        return None;
    }
    each::first_failing(entries, |e| named::table_is_as_told(e, spt0, spt1))
}

// Rule 11.
fn blocks_fault(entries: &Entries<'_>, fixed: &Fixed<'_>, setting: Setting) -> Option<EntryNo>
    requires granule { 0 < setting.granule }
    requires table0 { fixed.now.table0 ≡ named spt0_name entries.now }
    requires table1 { fixed.now.table1 ≡ named spt1_name entries.now }
    requires pointers0 { fixed.now.pointers0 ≡ named cpb0_name entries.now }
    requires pointers1 { fixed.now.pointers1 ≡ named cpb1_name entries.now }
    requires six { six_named entries.now ≡ true }
    requires names { pairwise names_differ entries.now ≡ true }
    ensures { Found entries.now (first_failing (block_on_granules setting) entries.now) result }
{
    let granule = setting.granule as u64;
    let table0 = named::is_on_granules(&fixed.table0, granule);
    let table1 = named::is_on_granules(&fixed.table1, granule);
    let pointers0 = named::is_on_granules(&fixed.pointers0, granule);
    let pointers1 = named::is_on_granules(&fixed.pointers1, granule);
    if table0 & table1 & pointers0 & pointers1 {
        return None;
    }
    each::first_failing(entries, |e| named::block_is_on_granules(e, granule))
}

// A rule broken at an entry.
pub fn broken_at(rule: TableRule, entry: EntryNo) -> Option<Fault>
    ensures { result ≡ broken rule entry.0 }
{
    Some(Fault { rule, entry })
}

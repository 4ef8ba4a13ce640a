// Which copy of the table is read, refusals 50 and 51 where none stands; which copy of the pointer block by a table that
// stands, and refusal 5.
ghost use Rattle.std.specs.Prelude.{◌≡◌, ◌+◌, ◌≤◌, length};
ghost use Rattle.rules.specs.Bytes.{block_size};
ghost use Rattle.rules.specs.Table.{entry_count, cpb0_of, cpb1_of};
ghost use Rattle.walks.specs.Entries.{HasEntries};
ghost use Rattle.rules.specs.Pointers.{pointers_stand};
ghost use Rattle.rules.specs.Copies.{copy_read, both_faults, no_table, table_read, view_through};
ghost use Rattle.rules.specs.declared.Refusal.TheVariants.{NoPointers as no_pointers};
ghost use Rattle.views.specs.Inner.Followed.{BothInside, Followed};

use entries::Entries;
use rules::{Refusal, Setting, TableFaults, View};

// SPT0 if it stands, else SPT1.
#[tactic(auto, unfolding(rules::specs::Copies::table_read, rules::specs::Copies::copy_read))]
pub fn table_read(image: &[u8], setting: Setting) -> Result<usize, Refusal>
    requires { BothInside setting image.now }
    ensures { result ≡ table_read setting image.now }
{
    if table::table_stands(image, setting.spt0, setting) {
        return Ok(setting.spt0);
    }
    if table::table_stands(image, setting.spt1, setting) {
        return Ok(setting.spt1);
    }
    Err(no_table(image, setting))
}

// Neither table copy stands: whether one of them has the magic, and what each breaks first.
#[tactic(auto, unfolding(rules::specs::Copies::no_table))]
fn no_table(image: &[u8], setting: Setting) -> Refusal
    requires { BothInside setting image.now }
    ensures { result ≡ no_table setting image.now }
{
    let faults = both_faults(image, setting);
    if table::magic_right(image, setting.spt0) || table::magic_right(image, setting.spt1) {
        return Refusal::NoTable(faults);
    }
    Refusal::NoMagic(faults)
}

// What each table copy breaks first.
#[tactic(auto, unfolding(rules::specs::Copies::both_faults))]
pub fn both_faults(image: &[u8], setting: Setting) -> TableFaults
    requires { BothInside setting image.now }
    ensures { result ≡ both_faults setting image.now }
{
    TableFaults {
        fault0: table::table_fault(image, setting.spt0, setting),
        fault1: table::table_fault(image, setting.spt1, setting),
    }
}

// Of two copies of the pointer block the first if it stands, else the second.
#[tactic(auto, unfolding(rules::specs::Copies::copy_read))]
fn pointers_read(image: &[u8], cpb0: usize, cpb1: usize) -> Result<usize, Refusal>
    requires first { cpb0 + block_size ≤ length image.now }
    requires second { cpb1 + block_size ≤ length image.now }
    ensures { result ≡ copy_read no_pointers pointers_stand image.now cpb0 cpb1 }
{
    if places::pointers_stand(image, cpb0) {
        return Ok(cpb0);
    }
    if places::pointers_stand(image, cpb1) {
        return Ok(cpb1);
    }
    Err(Refusal::NoPointers)
}

// Where a table puts CPB0 and CPB1.
#[tactic(auto, unfolding(rules::specs::Table::cpb0_of, rules::specs::Table::cpb1_of, rules::specs::Table::entries, rules::specs::Table::cpb0_name, rules::specs::Table::cpb1_name, rules::specs::Bytes::up_to_zero))]
fn pointer_blocks(t: &[u8]) -> (usize, usize)
    requires { HasEntries t.now (entry_count t.now) }
    ensures first { result.0 ≡ cpb0_of t.now }
    ensures second { result.1 ≡ cpb1_of t.now }
{
    let entries = Entries::counted(t);
    (
        entries.named_start(&names::CPB0) as usize,
        entries.named_start(&names::CPB1) as usize,
    )
}

// Where things are by the table at an address.
#[tactic(auto, unfolding(rules::specs::Copies::view_through, rules::specs::Copies::pointers_read))]
pub fn view_through(image: &[u8], setting: Setting, at: usize) -> Result<View, Refusal>
    requires { Followed image.now at }
    ensures { result ≡ view_through setting image.now at }
{
    let (cpb0, cpb1) = pointer_blocks(fields::block_at(image, at));
    let pointers = pointers_read(image, cpb0, cpb1)?;
    Ok(View {
        spt0: setting.spt0,
        spt1: setting.spt1,
        cpb0,
        cpb1,
        table: at,
        pointers,
    })
}

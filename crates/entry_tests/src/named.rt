// What rules 9 to 11 ask of one entry, if it has one of the six names.
ghost use Rattle.std.specs.Prelude.{◌≡◌, ◌<◌};
ghost use Rattle.rules.specs.Bytes.{up_to_zero};
ghost use Rattle.rules.specs.Numbers.{setting};
ghost use Rattle.rules.specs.Table.{on_granules, if_named, starts_at, boot_info_right, table_as_told, block_on_granules};

use entries::Entry;

// The entry starts at a multiple of the granule and is at least one granule long.
#[tactic(auto, unfolding(rules::specs::Table::on_granules, rules::specs::Bytes::multiple))]
pub fn is_on_granules(e: &Entry<'_>, granule: u64) -> bool
    requires { 0 < granule }
    ensures { result ≡ on_granules granule e.now }
{
    (e.start() % granule == 0) & (granule <= e.size())
}

// It starts at an address, if it has that name.
#[tactic(auto, unfolding(rules::specs::Table::if_named, rules::specs::Table::starts_at))]
pub fn starts_if_named(e: &Entry<'_>, wanted: &[u8], at: u64) -> bool
    ensures { result ≡ if_named (up_to_zero wanted.now) (starts_at at) e.now }
{
    !e.has_name(wanted) | (e.start() == at)
}

// What rule 9 asks of one entry.
#[tactic(auto, unfolding(rules::specs::Table::boot_info_right, rules::specs::Table::boot_info, rules::specs::Bytes::up_to_zero))]
pub fn boot_info_is_right(e: &Entry<'_>) -> bool
    ensures { result ≡ boot_info_right e.now }
{
    starts_if_named(e, &names::BOOT_INFO, 0)
}

// What rule 10 asks of one entry.
#[tactic(auto, unfolding(rules::specs::Table::table_as_told, rules::specs::Numbers::setting, rules::specs::Table::spt0_name, rules::specs::Table::spt1_name, rules::specs::Bytes::up_to_zero))]
pub fn table_is_as_told(e: &Entry<'_>, spt0: u64, spt1: u64) -> bool
    ensures { result ≡ table_as_told (setting 0 spt0 spt1) e.now }
{
    starts_if_named(e, &names::SPT0, spt0) & starts_if_named(e, &names::SPT1, spt1)
}

// What rule 11 asks of one entry.
#[tactic(auto, unfolding(rules::specs::Table::block_on_granules, rules::specs::Table::if_named, rules::specs::Numbers::setting, rules::specs::Lists::all, rules::specs::Table::spt0_name, rules::specs::Table::spt1_name, rules::specs::Table::cpb0_name, rules::specs::Table::cpb1_name, rules::specs::Bytes::up_to_zero))]
pub fn block_is_on_granules(e: &Entry<'_>, granule: u64) -> bool
    requires { 0 < granule }
    ensures { result ≡ block_on_granules (setting granule 0 0) e.now }
{
    let fits = is_on_granules(e, granule);
    (!e.has_name(&names::SPT0) | fits)
        & (!e.has_name(&names::SPT1) | fits)
        & (!e.has_name(&names::CPB0) | fits)
        & (!e.has_name(&names::CPB1) | fits)
}

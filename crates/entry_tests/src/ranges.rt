// What rules 5 to 7 ask of the range of an entry, from its start over its length.
ghost use Rattle.std.specs.Prelude.{◌≡◌};
ghost use Rattle.rules.specs.Table.{range_aligned, range_inside, ranges_apart};
ghost use Rattle.entry_tests.specs.Inner.Ranges.{ends_before};

use entries::Entry;

// The unit of every start and length.
const UNIT: u64 = rules::BLOCK_SIZE as u64;

// Rule 5: start and length are multiples of 4,096 and length is not 0.
#[tactic(auto, unfolding(rules::specs::Table::range_aligned, rules::specs::Bytes::multiple))]
pub fn range_is_aligned(e: &Entry<'_>) -> bool
    ensures { result ≡ range_aligned e.now }
{
    let size = e.size();
    (e.start() % UNIT == 0) & (size % UNIT == 0) & (size != 0)
}

// Rule 6: start plus length is at most the image length.
#[tactic(auto, unfolding(rules::specs::Table::range_inside))]
pub fn range_is_inside(e: &Entry<'_>, len: u64) -> bool
    ensures { result ≡ range_inside len e.now }
{
    fields::bounds::ends_by(e.start(), e.size(), len)
}

// The range of an entry ends where that of another begins, or before.
#[tactic(auto, unfolding(crate::specs::Inner::Ranges::ends_before))]
pub fn ends_before(d: &Entry<'_>, e: &Entry<'_>) -> bool
    ensures { result ≡ ends_before d.now e.now }
{
    fields::bounds::ends_by(d.start(), d.size(), e.start())
}

// Rule 7: the ranges do not overlap.
#[tactic(auto, unfolding(rules::specs::Table::ranges_apart, crate::specs::Inner::Ranges::ends_before))]
pub fn ranges_are_apart(d: &Entry<'_>, e: &Entry<'_>) -> bool
    ensures { result ≡ ranges_apart d.now e.now }
{
    ends_before(d, e) | ends_before(e, d)
}

// What rules 3 and 4 ask of names.
ghost use Rattle.std.specs.Prelude.{◌≡◌, not, length};
ghost use Rattle.std.specs.List.{list_all};
ghost use Rattle.rules.specs.Lists.{same};
ghost use Rattle.rules.specs.Table.{name_right, names_differ};
ghost use Rattle.entry_tests.specs.Inner.Padding.{is_zero, padded, fields_differ};

use entries::Entry;

// Rule 3: the name has at least one byte before a zero within the 16.
#[tactic(auto, unfolding(rules::specs::Table::name_right, rules::specs::Table::name))]
pub fn name_is_right(e: &Entry<'_>) -> bool
    ensures { result ≡ name_right e.now }
{
    let n = names::name_length(e.name());
    (0 < n) & (n < entries::NAME_LENGTH)
}

// Rule 4: the names differ.
#[tactic(auto, unfolding(rules::specs::Table::names_differ, rules::specs::Table::name))]
pub fn names_differ(d: &Entry<'_>, e: &Entry<'_>) -> bool
    ensures { result ≡ names_differ d.now e.now }
{
    !names::same_name(d.name(), e.name())
}

// The name is followed by zeros alone.
pub fn name_is_padded(e: &Entry<'_>) -> bool
    ensures { result ≡ padded e.now }
{
    let name = e.name();
    is_zero(&name[names::name_length(name)..])
}

fn is_zero(bytes: &[u8]) -> bool
    ensures { result ≡ list_all is_zero bytes.now }
{
    bytes.iter().all(|b| *b == 0)
}

// The name fields differ.
#[tactic(auto, unfolding(crate::specs::Inner::Padding::fields_differ))]
pub fn fields_differ(d: &Entry<'_>, e: &Entry<'_>) -> bool
    ensures { result ≡ fields_differ d.now e.now }
{
    words_differ(d.name(), e.name())
}

// Two fields of 16 bytes differ: mostly their first eight bytes do, and as numbers eight are compared at once.
fn words_differ(x: &[u8], y: &[u8]) -> bool
    requires { (length x.now ≡ 16) × (length y.now ≡ 16) }
    ensures { result ≡ not (same x.now y.now) }
{
    if fields::number::<8>(x, 0) != fields::number::<8>(y, 0) {
        return true;
    }
    fields::number::<8>(x, 8) != fields::number::<8>(y, 8)
}

// Two pointer-block dumps that a technician hands in: the one that stands, as a part of his own buffer.
#![tactic(auto)]

ghost use Rattle.std.specs.Prelude.{◌≡◌};
ghost use Rattle.rules.specs.Copies.{dump_stands, standing_dump};

// The dump that stands, the first if both do; an empty part of the first if neither does.
#[tactic(auto, unfolding(rules::specs::Copies::standing_dump))]
pub fn standing_dump<'a>(a: &'a [u8], b: &'a [u8]) -> &'a [u8]
    ensures { result.now ≡ standing_dump a.now b.now }
{
    if dump_stands(a) {
        a
    } else if dump_stands(b) {
        b
    } else {
        &a[..0]
    }
}

// A dump of the right length whose fields are right.
#[tactic(auto, unfolding(rules::specs::Copies::dump_stands))]
fn dump_stands(dump: &[u8]) -> bool
    ensures { result ≡ dump_stands dump.now }
{
    dump.len() == rules::BLOCK_SIZE && places::block_stands(dump)
}

// Names up to their zero byte: the six fixed ones, how long one is, and whether two are the same. The length of a word or
// of a line, which end at another byte, is found in the same way.
#![tactic(auto)]

ghost use Rattle.std.specs.Prelude.{◌≡◌, ◌≤◌, eqb, length, get_or, position};
ghost use Rattle.rules.specs.Lists.{same, member};
ghost use Rattle.rules.specs.Bytes.{up_to_zero};
ghost use Rattle.rules.specs.Table.{is_fixed_name};
ghost use Rattle.names.specs.Before.{before};
ghost use Rattle.names.specs.Inner.Initials.{initials};

// The six names that a table must have; no slot has one of them.
pub const BOOT_INFO: [u8; 9] = *b"BOOT_INFO";

pub const FACTORY_IMAGE: [u8; 13] = *b"FACTORY_IMAGE";

pub const SPT0: [u8; 4] = *b"SPT0";

pub const SPT1: [u8; 4] = *b"SPT1";

pub const CPB0: [u8; 4] = *b"CPB0";

pub const CPB1: [u8; 4] = *b"CPB1";

// How many bytes stand before the first that equals `stop`.
pub fn length_before(text: &[u8], stop: u8) -> usize
    ensures { (result ≡ length (before stop text.now)) × (result ≤ length text.now) }
{
    position_of(text, stop).unwrap_or(text.len())
}

fn position_of(text: &[u8], stop: u8) -> Option<usize>
    ensures { result ≡ position (λ byte. eqb byte stop) text.now }
{
    text.iter().position(|byte| *byte == stop)
}

// How many bytes are before the first zero.
pub fn name_length(s: &[u8]) -> usize
    ensures { (result ≡ length (up_to_zero s.now)) × (result ≤ length s.now) }
{
    length_before(s, 0)
}

#[tactic(auto, using(crate::proofs::Names::name_front))]
fn up_to_zero(s: &[u8]) -> &[u8]
    ensures { result.now ≡ up_to_zero s.now }
{
    &s[..name_length(s)]
}

// The two names are equal up to their zero bytes. Byte by byte, up to the first that differs: most names differ early.
pub fn same_name(a: &[u8], b: &[u8]) -> bool
    ensures { result ≡ same (up_to_zero a.now) (up_to_zero b.now) }
{
    for i in 0..a.len() {
        let x = a[i];
        if x != byte_or_zero(b, i) {
            return false;
        }
        if x == 0 {
            return true;
        }
    }
    byte_or_zero(b, a.len()) == 0
}

// The two names begin with the same byte, or are both empty. A search asks this first: most names differ here.
pub fn begin_alike(a: &[u8], b: &[u8]) -> bool
    ensures { result ≡ eqb (get_or a.now 0 0) (get_or b.now 0 0) }
{
    byte_or_zero(a, 0) == byte_or_zero(b, 0)
}

// The byte at an index, or 0 past the end, where a name ends too.
fn byte_or_zero(s: &[u8], i: usize) -> u8
    ensures { result ≡ get_or s.now i 0 }
{
    s.get(i).copied().unwrap_or(0)
}

// ---- the six

// The name is one of the six. Most names differ in the first byte from all of them.
#[tactic(auto, using(crate::proofs::Initials::begins_otherwise))]
pub fn is_fixed_name(name: &[u8]) -> bool
    ensures { result ≡ is_fixed_name (up_to_zero name.now) }
{
    begins_fixed(name) && has_fixed_name(name)
}

// By `|`: where tests are joined by `||`, the proof knows only the last of them.
fn has_fixed_name(name: &[u8]) -> bool
    ensures { result ≡ is_fixed_name (up_to_zero name.now) }
{
    let name = up_to_zero(name);
    (name == BOOT_INFO.as_slice())
        | (name == FACTORY_IMAGE.as_slice())
        | (name == SPT0.as_slice())
        | (name == SPT1.as_slice())
        | (name == CPB0.as_slice())
        | (name == CPB1.as_slice())
}

// The first byte is that of one of the six.
#[tactic(auto, unfolding(rules::specs::Lists::member, crate::specs::Inner::Initials::initials))]
fn begins_fixed(name: &[u8]) -> bool
    ensures { result ≡ member (get_or name.now 0 0) initials }
{
    matches!(name.first(), Some(b'B' | b'F' | b'S' | b'C'))
}

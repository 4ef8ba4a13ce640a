// Text put into a lent buffer from an index on: bytes, names as they are shown, numbers in decimal.
//
// Each function answers where the text ends. What does not fit in the buffer is left out.
#![tactic(auto)]

ghost use Rattle.std.specs.Prelude.{◌≡◌, [], ◌∷◌, map};
ghost use Rattle.text.specs.Put.{Put};
ghost use Rattle.text.specs.Shown.{decimal, shown as as_shown};

pub fn put_byte(out: &mut [u8], at: usize, byte: u8) -> usize
    ensures { Put out.old at (byte ∷ []) out.new result }
{
    if at < out.len() {
        out[at] = byte;
        at + 1
    } else {
        at
    }
}

pub fn put_bytes(out: &mut [u8], at: usize, bytes: &[u8]) -> usize
    ensures { Put out.old at bytes.now out.new result }
{
    let mut end = at;
    for byte in bytes {
        end = put_byte(out, end, *byte);
    }
    end
}

// A byte of a name as it is shown: a question mark for one that is not printable, or a space.
#[tactic(auto, unfolding(crate::specs::Shown::shown))]
pub fn shown(byte: u8) -> u8
    ensures { result ≡ as_shown byte }
{
    if byte.is_ascii_graphic() { byte } else { b'?' }
}

pub fn put_shown(out: &mut [u8], at: usize, name: &[u8]) -> usize
    ensures { Put out.old at (map as_shown name.now) out.new result }
{
    let mut end = at;
    for byte in name {
        end = put_byte(out, end, shown(*byte));
    }
    end
}

pub fn put_decimal(out: &mut [u8], at: usize, number: u64) -> usize
    ensures { Put out.old at (decimal number) out.new result }
{
    if number < 10 {
        return put_byte(out, at, b'0' + number as u8);
    }
    let end = put_decimal(out, at, number / 10);
    put_byte(out, end, b'0' + (number % 10) as u8)
}

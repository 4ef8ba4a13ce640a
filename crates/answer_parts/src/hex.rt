// Bytes as pairs of hexadecimal digits, the higher first, in lower case.
ghost use Rattle.std.specs.Prelude.{◌≡◌, ℕ, ◌≤◌, ◌<◌, length, get_or, if◌then◌else◌, Some, None};
ghost use Rattle.std.specs.List.{list_all};
ghost use Rattle.std.specs.Option.{IfSome};
ghost use Rattle.text.specs.Put.{Put};
ghost use Rattle.answer_parts.specs.Hex.{hex_digit, pair, hex, hex_value, is_hex_digit, is_bytes, byte_at};

// The value of a digit.
#[tactic(auto, unfolding(crate::specs::Hex::hex_value))]
fn digit(byte: u8) -> Option<u8>
    ensures value { result ≡ (if is_hex_digit byte then Some (hex_value byte) else None) }
    ensures below { IfSome result (λ value. value < 16) }
{
    match byte {
        b'0'..=b'9' => Some(byte - b'0'),
        b'a'..=b'f' => Some(byte - b'a' + 10),
        _ => None,
    }
}

// Digits only.
fn all_digits(word: &[u8]) -> bool
    ensures { result ≡ list_all is_hex_digit word.now }
{
    word.iter().all(|byte| digit(*byte).is_some())
}

// Digits only, in pairs, at least one.
#[tactic(auto, using(crate::proofs::HexDigits::all_listed), unfolding(crate::specs::Hex::is_bytes))]
pub fn is_bytes(word: &[u8]) -> bool
    ensures { result ≡ is_bytes word.now }
{
    (0 < word.len()) & (word.len() % 2 == 0) & all_digits(word)
}

// The byte of a pair; 0 past the end.
#[tactic(auto, unfolding(crate::specs::Hex::byte_at))]
fn byte_at(word: &[u8], pair: usize) -> u8
    ensures { result ≡ byte_at word.now pair }
{
    if word.len() / 2 <= pair {
        return 0;
    }
    16 * digit(word[2 * pair]).unwrap_or(0) + digit(word[2 * pair + 1]).unwrap_or(0)
}

// Fills a buffer with the bytes of a word.
pub fn decode(word: &[u8], out: &mut [u8])
    ensures { (i : ℕ) → i < length out.new → get_or out.new i 0 ≡ byte_at word.now i }
{
    for (i, byte) in out.iter_mut().enumerate() {
        *byte = byte_at(word, i);
    }
}

// A value below 16 as a digit.
#[tactic(auto, unfolding(crate::specs::Hex::hex_digit))]
fn shown(value: u8) -> u8
    requires { value < 16 }
    ensures { result ≡ hex_digit value }
{
    if value < 10 {
        b'0' + value
    } else {
        b'a' + (value - 10)
    }
}

// Puts bytes into a buffer from an index on, and answers where they end.
pub fn put(out: &mut [u8], at: usize, bytes: &[u8]) -> usize
    ensures { Put out.old at (hex bytes.now) out.new result }
{
    let mut end = at;
    for byte in bytes {
        end = put_pair(out, end, *byte);
    }
    end
}

fn put_pair(out: &mut [u8], at: usize, byte: u8) -> usize
    ensures { Put out.old at (pair byte) out.new result }
{
    let end = text::put_byte(out, at, shown(byte / 16));
    text::put_byte(out, end, shown(byte % 16))
}

// Decimal numbers in the words of a line.
ghost use Rattle.std.specs.Prelude.{◌≡◌, List, ◌∷◌, ℕ, ◌≤◌, ◌<◌};
ghost use Rattle.std.specs.Option.{IfSome, IfNone};
ghost use Rattle.tokens.specs.Words.{later_words};
ghost use Rattle.tokens.specs.Numbers.{digit, number, value, no_numbers, numbers, numbers_before_bytes};

use super::words::last_word_start;
use answer_parts::hex;

// The words after the verb read as numbers: whether each is one, how many there are, and the first four. The numbers are told
// also where a word is none, so that they are no Option.
#[derive(Clone, Copy)]
pub struct Row {
    pub numeric: bool,
    pub count: usize,
    pub first: usize,
    pub second: usize,
    pub third: usize,
    pub fourth: usize,
}

// The value of a decimal digit.
#[tactic(auto, unfolding(crate::specs::Numbers::digit))]
fn digit(byte: u8) -> Option<usize>
    ensures some { IfSome result (λ value. (value ≡ digit byte) × (value < 10)) }
    ensures none { IfNone result (10 ≤ digit byte) }
{
    match byte {
        b'0'..=b'9' => Some((byte - b'0') as usize),
        _ => None,
    }
}

// Decimal digits, at least one, of a number below 2^64.
fn number_of(word: &[u8]) -> Option<usize>
    ensures { result ≡ number word.now }
{
    if word.is_empty() {
        return None;
    }
    let mut value: usize = 0;
    for byte in word {
        let digit = digit(*byte)?;
        value = value.checked_mul(10)?.checked_add(digit)?;
    }
    Some(value)
}

pub fn value_of(word: &[u8]) -> usize
    ensures { result ≡ value word.now }
{
    number_of(word).unwrap_or(0)
}

// The numbers of no word.
fn no_numbers(numeric: bool) -> Row
    ensures { result ≡ no_numbers numeric }
{
    Row {
        numeric,
        count: 0,
        first: 0,
        second: 0,
        third: 0,
        fourth: 0,
    }
}

// The numbers with one word more in front.
fn with_front(word: &[u8], row: Row) -> Row
    requires { row.count < 18446744073709551615 }
    ensures { (ws : List (List ℕ)) → row ≡ numbers ws → result ≡ numbers (word.now ∷ ws) }
{
    let number = number_of(word);
    Row {
        numeric: number.is_some() & row.numeric,
        count: row.count + 1,
        first: number.unwrap_or(0),
        second: row.first,
        third: row.second,
        fourth: row.third,
    }
}

// The words after the first, each after one space, as numbers: the last word first.
pub fn numbers_of(line: &[u8]) -> Row
    ensures { result ≡ numbers (later_words line.now) }
{
    let mut row = no_numbers(true);
    let mut end = line.len();
    while 0 < end {
        let text = &line[..end];
        let from = last_word_start(text);
        if from == 0 {
            return row;
        }
        row = with_front(&text[from..], row);
        end = from - 1;
    }
    row
}

// The same of the words before the last, which is bytes in hexadecimal.
pub fn numbers_before_bytes(line: &[u8]) -> Row
    ensures { result ≡ numbers_before_bytes (later_words line.now) }
{
    let from = last_word_start(line);
    if from == 0 {
        return no_numbers(false);
    }
    let mut row = numbers_of(&line[..from - 1]);
    row.numeric = row.numeric & hex::is_bytes(&line[from..]);
    row
}

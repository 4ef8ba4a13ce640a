// The parts of an answer: numbers, bytes in hexadecimal, which are read too, and a sum of bytes. What is put into a lent
// buffer is put from an index on, and its function answers where it ends.
#![tactic(auto)]

pub mod hex; // bytes as pairs of hexadecimal digits
pub mod sum; // a sum of bytes

ghost use Rattle.std.specs.Prelude.{◌≡◌};
ghost use Rattle.text.specs.Put.{Put};
ghost use Rattle.answer_parts.specs.Answers.{spaced, spaced_row};

// A space and a number in decimal.
pub fn put_number(out: &mut [u8], at: usize, number: u64) -> usize
    ensures { Put out.old at (spaced number) out.new result }
{
    let end = text::put_byte(out, at, b' ');
    text::put_decimal(out, end, number)
}

// The same for each number of a row.
pub fn put_numbers(out: &mut [u8], at: usize, row: &[u32]) -> usize
    ensures { Put out.old at (spaced_row row.now) out.new result }
{
    let mut end = at;
    for number in row {
        end = put_number(out, end, *number as u64);
    }
    end
}

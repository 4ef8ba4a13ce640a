// The words of a line, and the numbers in them.
#![tactic(auto)]

pub mod words; // where words begin and end
pub mod numbers; // decimal numbers in them

ghost use Rattle.std.specs.Prelude.{◌≡◌};
ghost use Rattle.tokens.specs.Words.{last_word};
ghost use Rattle.tokens.specs.Numbers.{value};

// What stands after the last space of a line.
pub fn last_word(line: &[u8]) -> &[u8]
    ensures { result.now ≡ last_word line.now }
{
    let from = words::last_word_start(line);
    &line[from..]
}

// The number that it is, or 0.
pub fn last_number(line: &[u8]) -> usize
    ensures { result ≡ value (last_word line.now) }
{
    numbers::value_of(last_word(line))
}

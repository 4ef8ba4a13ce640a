// Where the words of a line begin and end.
ghost use Rattle.std.specs.Prelude.{◌≡◌, ◌≤◌, length};
ghost use Rattle.tokens.specs.Words.{LastWordBegins};

// Where the bytes after the last space begin.
pub fn last_word_start(line: &[u8]) -> usize
    ensures { LastWordBegins line.now result }
{
    for i in (0..line.len()).rev() {
        if line[i] == b' ' {
            return i + 1;
        }
    }
    0
}

// One line of a replay script: what it does.
#![tactic(auto)]

ghost use Rattle.std.specs.Prelude.{◌≡◌};
ghost use Rattle.script.specs.Lines.{line_of};

use script_lines::Line;
use tokens::numbers;

pub fn line_of(line: &[u8]) -> Line
    ensures { result ≡ line_of line.now }
{
    if line.len() == 0 {
        return Line::Nothing;
    }
    if line[0] == b'#' {
        return Line::Nothing;
    }
    let end = names::length_before(line, b' ');
    let verb = &line[..end];
    let row = numbers::numbers_of(line);
    let hexed = numbers::numbers_before_bytes(line);
    let mut said = Line::Error;
    said = script_lines::change_line(verb, row, hexed, said);
    said = script_lines::question_line(verb, row, said);
    said = script_lines::command_line(verb, row, hexed, said);
    script_lines::steps_line(verb, row, said)
}

// What each kind of line of a replay script says: the forms of a line. A form that fits takes the place of the line that
// was found by the forms before it.
#![tactic(auto)]

ghost use Rattle.std.specs.Prelude.{◌≡◌, cond, ◌%◌};
ghost use Rattle.script_lines.specs.Forms.{takes, takes_slot, takes_ranges, by_forms, change_forms, question_forms, command_forms, steps_forms};

use commands::Command;
use rules::SlotNo;
use tokens::numbers::Row;

// What a line does. A number is as it is written; whether it suits the image is judged elsewhere. `Command`: with an
// empty name, or of none. `Named`: with the name that the line's last word has as bytes.
#[derive(Clone, Copy)]
pub enum Line {
    Nothing,
    Change(Change),
    Question(Question),
    Command(Command),
    Named(Command),
    Steps(Steps),
    Error,
}

// `image`, `length`, `box`, `put` with the line's last word, `copy`.
#[derive(Clone, Copy)]
pub enum Change {
    Image(usize, u8),
    Length(usize),
    Setting(usize, usize, usize),
    Put(usize),
    Copy(usize, usize, usize),
}

// `order` with the length of its row, `list`, `slot`, `peek`, `sum`, `dumps`.
#[derive(Clone, Copy)]
pub enum Question {
    Order(usize),
    Listing,
    Slot(SlotNo),
    Peek(usize, usize),
    Sum,
    Dumps(usize, usize, usize, usize),
}

// `run`, `cut`, `torn` with the number of ranges, which are the line's last words.
#[derive(Clone, Copy)]
pub enum Steps {
    Run(usize),
    Cut(usize, usize),
    Torn(usize, usize),
}

// The row of a bare `order`; the longest row has room for every place.
const ROW_DEFAULT: usize = 127;

const BYTE_MAX: usize = 255;

const SLOT_MAX: usize = 4294967295;

// ---- tests

// The verb has this name, and so many numbers follow.
fn takes(verb: &[u8], name: &[u8], row: Row, count: usize) -> bool
    ensures { result ≡ takes verb.now name.now row count }
{
    check::same(verb, name) & row.numeric & (row.count == count)
}

// One number that a slot or a length may have.
fn takes_slot(verb: &[u8], name: &[u8], row: Row) -> bool
    ensures { result ≡ takes_slot verb.now name.now row }
{
    takes(verb, name, row, 1) & (row.first <= SLOT_MAX)
}

// A number, and then pairs of numbers, at least one.
fn takes_ranges(verb: &[u8], name: &[u8], row: Row) -> bool
    ensures { result ≡ takes_ranges verb.now name.now row }
{
    check::same(verb, name) & row.numeric & (3 <= row.count) & (row.count % 2 == 1)
}

fn form(fits: bool, does: Line, line: Line) -> Line
    ensures { result ≡ cond fits does line }
{
    if fits {
        return does;
    }
    line
}

// A number as a slot's, which a form that fits leaves as it is.
fn slot_of(row: Row) -> SlotNo
    ensures { result.0 ≡ row.first % 4294967296 }
{
    SlotNo((row.first % 4294967296) as u32)
}

// The same as a byte.
fn byte_of(number: usize) -> u8
    ensures { result ≡ number % 256 }
{
    (number % 256) as u8
}

// ---- lines that change the image or the setting

pub fn change_line(verb: &[u8], row: Row, hexed: Row, otherwise: Line) -> Line
    ensures { result ≡ by_forms (change_forms verb.now row hexed) otherwise }
{
    let byte = takes(verb, b"image", row, 2) & (row.second <= BYTE_MAX);
    let image = Change::Image(row.first, byte_of(row.second));
    let setting = Change::Setting(row.first, row.second, row.third);
    let copy = Change::Copy(row.first, row.second, row.third);
    let mut line = otherwise;
    line = form(byte, Line::Change(image), line);
    line = form(
        takes(verb, b"length", row, 1),
        Line::Change(Change::Length(row.first)),
        line,
    );
    line = form(takes(verb, b"box", row, 3), Line::Change(setting), line);
    line = form(
        takes(verb, b"put", hexed, 1),
        Line::Change(Change::Put(hexed.first)),
        line,
    );
    form(takes(verb, b"copy", row, 3), Line::Change(copy), line)
}

// ---- lines that ask and change nothing

pub fn question_line(verb: &[u8], row: Row, otherwise: Line) -> Line
    ensures { result ≡ by_forms (question_forms verb.now row) otherwise }
{
    let fits = takes(verb, b"order", row, 1) & (row.first <= rules::MOST_PLACES);
    let slot = Question::Slot(slot_of(row));
    let peek = Question::Peek(row.first, row.second);
    let dumps = Question::Dumps(row.first, row.second, row.third, row.fourth);
    let mut line = otherwise;
    line = form(
        takes(verb, b"order", row, 0),
        Line::Question(Question::Order(ROW_DEFAULT)),
        line,
    );
    line = form(fits, Line::Question(Question::Order(row.first)), line);
    line = form(
        takes(verb, b"list", row, 0),
        Line::Question(Question::Listing),
        line,
    );
    line = form(takes_slot(verb, b"slot", row), Line::Question(slot), line);
    line = form(takes(verb, b"peek", row, 2), Line::Question(peek), line);
    line = form(
        takes(verb, b"sum", row, 0),
        Line::Question(Question::Sum),
        line,
    );
    form(takes(verb, b"dumps", row, 4), Line::Question(dumps), line)
}

// ---- lines that start a job

pub fn command_line(verb: &[u8], row: Row, hexed: Row, otherwise: Line) -> Line
    ensures { result ≡ by_forms (command_forms verb.now row hexed) otherwise }
{
    let slot = slot_of(row);
    let named = slot_of(hexed);
    let mut line = otherwise;
    line = form(
        takes_slot(verb, b"enable", row),
        Line::Command(Command::Enable(slot)),
        line,
    );
    line = form(
        takes_slot(verb, b"disable", row),
        Line::Command(Command::Disable(slot)),
        line,
    );
    line = form(
        takes_slot(verb, b"rename", hexed),
        Line::Named(Command::Rename(named)),
        line,
    );
    line = form(
        takes_slot(verb, b"rename", row),
        Line::Command(Command::Rename(slot)),
        line,
    );
    line = form(
        takes_slot(verb, b"create", hexed),
        Line::Named(Command::Create(named.0)),
        line,
    );
    line = form(
        takes_slot(verb, b"create", row),
        Line::Command(Command::Create(slot.0)),
        line,
    );
    line = form(
        takes_slot(verb, b"delete", row),
        Line::Command(Command::Delete(slot)),
        line,
    );
    form(
        takes(verb, b"repair", row, 0),
        Line::Command(Command::Repair),
        line,
    )
}

// ---- lines that do steps of the current job

// A cut before a step is one of 0 bytes inside it.
pub fn steps_line(verb: &[u8], row: Row, otherwise: Line) -> Line
    ensures { result ≡ by_forms (steps_forms verb.now row) otherwise }
{
    let mut line = otherwise;
    line = form(
        takes(verb, b"run", row, 1),
        Line::Steps(Steps::Run(row.first)),
        line,
    );
    line = form(
        takes(verb, b"cut", row, 1),
        Line::Steps(Steps::Cut(row.first, 0)),
        line,
    );
    line = form(
        takes(verb, b"cut", row, 2),
        Line::Steps(Steps::Cut(row.first, row.second)),
        line,
    );
    form(
        takes_ranges(verb, b"torn", row),
        Line::Steps(Steps::Torn(row.first, row.count / 2)),
        line,
    )
}

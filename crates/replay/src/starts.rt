// Lines that start a job, which becomes the current one.
use super::desk::Desk;
use super::{desk, printing};
use commands::Command;
use std::io;
use std::io::Write;

// A command of this name; an empty one where it has none.
pub fn start<W: Write>(
    desk: Desk,
    out: &mut W,
    room: &[u8],
    command: Command,
    name: &[u8],
) -> io::Result<Desk> {
    let setting = desk.setting;
    let length = desk.length.min(room.len());
    match commands::start(&room[0..length], setting, command, name) {
        Err(why) => {
            printing::print_refused(out, why)?;
            Ok(desk::without_job(desk))
        }
        Ok(job) => {
            printing::print_number(out, b"job", job.remaining() as u64)?;
            Ok(desk::with_job(desk, job))
        }
    }
}

// Room for the bytes of a name: a line has fewer pairs of digits.
fn name_room() -> [u8; 8192] {
    [0; 8192]
}

// A command of the name that a word has as bytes.
pub fn start_named<W: Write>(
    desk: Desk,
    out: &mut W,
    room: &[u8],
    command: Command,
    word: &[u8],
) -> io::Result<Desk> {
    let mut name = name_room();
    start_with(desk, out, room, command, word, &mut name)
}

fn start_with<W: Write>(
    desk: Desk,
    out: &mut W,
    room: &[u8],
    command: Command,
    word: &[u8],
    name: &mut [u8],
) -> io::Result<Desk> {
    let n = (word.len() / 2).min(name.len());
    answer_parts::hex::decode(word, &mut name[0..n]);
    start(desk, out, room, command, &name[0..n])
}

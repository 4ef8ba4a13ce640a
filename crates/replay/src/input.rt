// Pieces of standard input, made into lines.
use super::desk::Desk;
use super::{changes, desk, questions, starts, steps};
use script_lines::Line;
use std::io;
use std::io::{Read, Write};

// Nothing says that the input ends, so turns are counted up to a number that no run reaches.
pub fn replay<R: Read, W: Write>(
    input: &mut R,
    out: &mut W,
    room: &mut [u8],
    line: &mut [u8],
) -> io::Result<()> {
    let mut desk = desk::new_desk();
    for _ in 0..u64::MAX {
        if desk.ended {
            break;
        }
        desk = read_piece(desk, input, out, room, line)?;
    }
    Ok(())
}

fn read_piece<R: Read, W: Write>(
    desk: Desk,
    input: &mut R,
    out: &mut W,
    room: &mut [u8],
    line: &mut [u8],
) -> io::Result<Desk> {
    let mut piece = [0u8; 65536];
    let n = input.read(&mut piece)?;
    if n == 0 {
        return finish(desk, out, room, line);
    }
    take_piece(desk, out, room, line, &piece[..n])
}

// The last line may lack its LF.
fn finish<W: Write>(desk: Desk, out: &mut W, room: &mut [u8], line: &[u8]) -> io::Result<Desk> {
    if desk.used == 0 {
        return Ok(desk::end(desk));
    }
    let end = desk.used.min(line.len());
    Ok(desk::end(do_line(desk, out, room, &line[0..end])?))
}

fn take_piece<W: Write>(
    desk: Desk,
    out: &mut W,
    room: &mut [u8],
    line: &mut [u8],
    piece: &[u8],
) -> io::Result<Desk> {
    let mut next = desk;
    let mut at = 0;
    while at < piece.len() {
        let end = at + names::length_before(&piece[at..], b'\n');
        next = take_part(next, out, room, line, &piece[at..end], end < piece.len())?;
        if next.ended {
            return Ok(next);
        }
        at = end + 1;
    }
    Ok(next)
}

// Adds a part of a line; the line is done once it is whole.
fn take_part<W: Write>(
    desk: Desk,
    out: &mut W,
    room: &mut [u8],
    line: &mut [u8],
    part: &[u8],
    whole: bool,
) -> io::Result<Desk> {
    let used = desk.used.min(line.len());
    if line.len() - used < part.len() {
        return desk::error(desk, out);
    }
    let end = used + part.len();
    store(&mut line[used..end], part);
    if !whole {
        return Ok(desk::with_used(desk, end));
    }
    Ok(desk::next_line(do_line(desk, out, room, &line[0..end])?))
}

fn store(to: &mut [u8], bytes: &[u8]) {
    let n = to.len().min(bytes.len());
    for i in 0..n {
        to[i] = bytes[i];
    }
}

fn do_line<W: Write>(desk: Desk, out: &mut W, room: &mut [u8], line: &[u8]) -> io::Result<Desk> {
    let asked = script::line_of(line);
    match asked {
        Line::Nothing => Ok(desk),
        Line::Change(change) => changes::change(desk, out, room, change, line),
        Line::Question(question) => {
            if questions::ask(desk, out, room, question)? {
                return Ok(desk);
            }
            desk::error(desk, out)
        }
        Line::Command(command) => starts::start(desk, out, room, command, b""),
        Line::Named(command) => {
            starts::start_named(desk, out, room, command, tokens::last_word(line))
        }
        Line::Steps(asked_steps) => steps::carry_out(desk, out, room, asked_steps, line),
        Line::Error => desk::error(desk, out),
    }
}

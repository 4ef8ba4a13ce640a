// Lines that change the image or the setting. The image lies at the front of its room.
ghost use Rattle.std.specs.Prelude.{◌+◌, ◌≤◌, ◌<◌, length};

use super::desk;
use super::desk::Desk;
use fields::bounds::part_of;
use rules::Setting;
use script_lines::Change;
use std::io;
use std::io::Write;

pub const ERASED: u8 = 0xFF;

pub fn change<W: Write>(
    desk: Desk,
    out: &mut W,
    room: &mut [u8],
    asked: Change,
    line: &[u8],
) -> io::Result<Desk> {
    match asked {
        Change::Image(length, byte) => new_image(desk, out, room, length, byte),
        Change::Length(length) => new_length(desk, out, room, length),
        Change::Setting(granule, spt0, spt1) => Ok(new_setting(desk, granule, spt0, spt1)),
        Change::Put(address) => put(desk, out, room, address, tokens::last_word(line)),
        Change::Copy(from, to, n) => copy(desk, out, room, from, to, n),
    }
}

fn new_image<W: Write>(
    desk: Desk,
    out: &mut W,
    room: &mut [u8],
    length: usize,
    byte: u8,
) -> io::Result<Desk> {
    if room.len() < length {
        return desk::error(desk, out);
    }
    room[..length].fill(byte);
    Ok(desk::without_job(desk::with_length(desk, length)))
}

fn new_length<W: Write>(
    desk: Desk,
    out: &mut W,
    room: &mut [u8],
    length: usize,
) -> io::Result<Desk> {
    if room.len() < length {
        return desk::error(desk, out);
    }
    let kept = desk.length.min(length);
    room[kept..length].fill(ERASED);
    Ok(desk::with_length(desk, length))
}

fn new_setting(desk: Desk, granule: usize, spt0: usize, spt1: usize) -> Desk {
    let setting = Setting {
        granule,
        spt0,
        spt1,
    };
    desk::with_setting(desk, setting)
}

fn put<W: Write>(
    desk: Desk,
    out: &mut W,
    room: &mut [u8],
    at: usize,
    word: &[u8],
) -> io::Result<Desk> {
    let length = desk.length.min(room.len());
    match part_of(length, at, word.len() / 2) {
        Some(part) => answer_parts::hex::decode(word, &mut room[part]),
        None => return desk::error(desk, out),
    }
    Ok(desk)
}

fn copy<W: Write>(
    desk: Desk,
    out: &mut W,
    room: &mut [u8],
    from: usize,
    to: usize,
    n: usize,
) -> io::Result<Desk> {
    let length = desk.length.min(room.len());
    if length < n {
        return desk::error(desk, out);
    }
    if length - n < from {
        return desk::error(desk, out);
    }
    if length - n < to {
        return desk::error(desk, out);
    }
    copy_bytes(room, from, to, n);
    Ok(desk)
}

fn copy_bytes(room: &mut [u8], from: usize, to: usize, n: usize)
    requires { (from + n ≤ length room.old) × (to + n ≤ length room.old) }
{
    for i in 0..n {
        let k = turn(i, n, to <= from);
        room[to + k] = room[from + k];
    }
}

// Which byte is copied after i others, so that each is read before it is stored to: the lowest first where the target
// is lower, else the highest first.
fn turn(i: usize, n: usize, lower: bool) -> usize
    requires { i < n }
    ensures { result < n }
{
    if lower { i } else { n - 1 - i }
}

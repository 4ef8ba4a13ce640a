// Lines that do steps of the current job.
use super::desk::Desk;
use super::{changes, desk, printing};
use fields::bounds::part_of;
use jobs::Job;
use rules::Step;
use script_lines::Steps;
use std::io;
use std::io::Write;
use std::ops::Range;
use tokens::words;

pub fn carry_out<W: Write>(
    desk: Desk,
    out: &mut W,
    room: &mut [u8],
    asked: Steps,
    line: &[u8],
) -> io::Result<Desk> {
    let Some(job) = desk.job else {
        return desk::error(desk, out);
    };
    let length = desk.length.min(room.len());
    match asked {
        Steps::Run(budget) => run(desk, out, &mut room[0..length], job, budget),
        Steps::Cut(n, bytes) => cut(desk, out, &mut room[0..length], job, n, bytes),
        Steps::Torn(n, ranges) => torn(desk, out, &mut room[0..length], job, n, ranges, line),
    }
}

fn run<W: Write>(
    desk: Desk,
    out: &mut W,
    image: &mut [u8],
    mut job: Job,
    budget: usize,
) -> io::Result<Desk> {
    match job.run(image, budget) {
        Err(why) => printing::print_refused(out, why)?,
        Ok(n) => printing::print_number(out, b"ran", n as u64)?,
    }
    Ok(desk::with_job(desk, job))
}

// ---- cuts

// With the lowest bytes of an erase that comes next done.
fn cut<W: Write>(
    desk: Desk,
    out: &mut W,
    image: &mut [u8],
    mut job: Job,
    n: usize,
    bytes: usize,
) -> io::Result<Desk> {
    if job.remaining() <= n {
        return desk::error(desk, out);
    }
    let part = erase_after(&mut job, image, n);
    let to = part.end.min(image.len());
    let from = part.start.min(to);
    wipe(&mut image[from..to], 0, bytes);
    dropped(desk, out)
}

// With some ranges of it done.
fn torn<W: Write>(
    desk: Desk,
    out: &mut W,
    image: &mut [u8],
    mut job: Job,
    n: usize,
    ranges: usize,
    line: &[u8],
) -> io::Result<Desk> {
    if job.remaining() <= n {
        return desk::error(desk, out);
    }
    let part = erase_after(&mut job, image, n);
    let to = part.end.min(image.len());
    let from = part.start.min(to);
    wipe_ranges(&mut image[from..to], ranges, line);
    dropped(desk, out)
}

fn dropped<W: Write>(desk: Desk, out: &mut W) -> io::Result<Desk> {
    printing::print_word(out, b"cut")?;
    Ok(desk::without_job(desk))
}

// The granule that comes next to be erased, after a run; else nothing. A run that is refused leaves the image as it was,
// and the job is dropped all the same.
fn erase_after(job: &mut Job, image: &mut [u8], n: usize) -> Range<usize> {
    match job.run(image, n) {
        Err(_) => 0..0,
        Ok(_) => erase_next(job, image.len()),
    }
}

fn erase_next(job: &Job, length: usize) -> Range<usize> {
    match job.next_step() {
        Some(Step::Erase(at)) => part_of(length, at, job.plan.granule).unwrap_or(0..0),
        _ => 0..0,
    }
}

// What passes the granule's end is ignored.
fn wipe(granule: &mut [u8], at: usize, n: usize) {
    let from = at.min(granule.len());
    let to = from + n.min(granule.len() - from);
    granule[from..to].fill(changes::ERASED);
}

// The ranges are the line's last words, in pairs. Each only sets bytes to 0xFF, so the last may come first.
fn wipe_ranges(granule: &mut [u8], ranges: usize, line: &[u8]) {
    let mut end = line.len();
    for _ in 0..ranges {
        let size = last_of(line, end);
        let at = last_of(line, size.before);
        end = at.before;
        wipe(granule, at.number, size.number);
    }
}

// The last number of a part of a line, and how many bytes stand before it and its space.
#[derive(Clone, Copy)]
struct Last {
    number: usize,
    before: usize,
}

fn last_of(line: &[u8], end: usize) -> Last {
    let n = end.min(line.len());
    let part = &line[0..n];
    let from = words::last_word_start(part);
    let mut last = Last {
        number: tokens::last_number(part),
        before: 0,
    };
    if 0 < from {
        last.before = from - 1;
    }
    last
}

// What a script works on, beside the image: the setting, the current job, and where in the script it is.
use super::printing;
use jobs::Job;
use rules::Setting;
use std::io;
use std::io::Write;

// `length`: that of the image. `job`: the current one. `line`: the number of the line. `used`: how many of its bytes are
// read.
#[derive(Clone, Copy)]
pub struct Desk {
    pub length: usize,
    pub setting: Setting,
    pub job: Option<Job>,
    pub line: u64,
    pub used: usize,
    pub ended: bool,
}

pub fn new_desk() -> Desk {
    Desk {
        length: 0,
        setting: Setting {
            granule: 0,
            spt0: 0,
            spt1: 0,
        },
        job: None,
        line: 1,
        used: 0,
        ended: false,
    }
}

pub fn with_length(desk: Desk, length: usize) -> Desk {
    let mut next = desk;
    next.length = length;
    next
}

pub fn with_setting(desk: Desk, setting: Setting) -> Desk {
    let mut next = desk;
    next.setting = setting;
    next
}

pub fn with_job(desk: Desk, job: Job) -> Desk {
    let mut next = desk;
    next.job = Some(job);
    next
}

pub fn without_job(desk: Desk) -> Desk {
    let mut next = desk;
    next.job = None;
    next
}

pub fn with_used(desk: Desk, used: usize) -> Desk {
    let mut next = desk;
    next.used = used;
    next
}

// The last number is never passed.
pub fn next_line(desk: Desk) -> Desk {
    let mut next = desk;
    next.used = 0;
    next.line = desk.line.saturating_add(1);
    next
}

pub fn end(desk: Desk) -> Desk {
    let mut next = desk;
    next.ended = true;
    next
}

// Ends the script at a line that is no line, or that asks for what is not there.
pub fn error<W: Write>(desk: Desk, out: &mut W) -> io::Result<Desk> {
    printing::print_number(out, b"error", desk.line)?;
    Ok(end(desk))
}

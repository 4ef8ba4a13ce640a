// Cuts every command at every step, and inside every erase, on the images under data/, and counts what is read then.
//
// Inside an erase the power fails with many choices of its bytes wiped (`choices`). The middle image has granules of
// 32,768 bytes, the wide one of 65,536, the others of 4,096. After each cut the flash is repaired and one further command
// is finished. A line for each command says how many cuts there were, how many left the old reading, the new one or
// another, after how many the repair kept the reading and made the pairs agree, and after how many the further command
// then left what the book says.
#![tactic(auto)]

ghost use Rattle.std.specs.Prelude.{◌≡◌, length};

use book::Book;
use commands::Command;
use harness::tearing::Choice;
use jobs::Job;
use rules::{Refusal, Setting, SlotNo, Step};
use std::fs::File;
use std::io;
use std::io::Read as _;
use std::rt::Files;
use tally::Tally;

mod choices;
mod printing;
mod tally;

// The length of the longest of the images.
const LONGEST: usize = 458752;

// The smallest granule.
const SMALLEST: usize = 4096;

fn image_buffer() -> [u8; LONGEST]
    ensures { 458752 ≡ length result }
{
    [0; LONGEST]
}

// ---- one cut

// A command of 16 steps or more: it enables one of the first two slots that is not the first of the order.
fn further(cut: Book) -> Command {
    let first = if cut.order.row[0] == 0 { 1 } else { 0 };
    Command::Enable(SlotNo(first))
}

// One image copied over another of the same length.
fn copy(from: &[u8], to: &mut [u8]) {
    if from.len() != to.len() {
        return;
    }
    fields::stores::copy(to, 0, from);
}

// The flash, with a choice of the granule at an address wiped, and what it reads as.
fn cut_flash(
    flash: &[u8],
    work: &mut [u8],
    setting: Setting,
    at: usize,
    choice: Choice,
) -> Result<Book, Refusal> {
    copy(flash, work);
    harness::tearing::tear(work, at, setting.granule, choice);
    book::read_book(work, setting)
}

// A repair keeps the reading and makes the pairs agree.
fn is_repaired(work: &mut [u8], setting: Setting, cut: Book) -> bool {
    let _ = harness::finish(work, setting, Command::Repair);
    book::reads_as(book::read_book(work, setting), cut) && book::pairs_agree(work, setting)
}

// A further command leaves what the book says.
fn is_right_then(work: &mut [u8], setting: Setting, cut: Book) -> bool {
    let next = further(cut);
    let expected = book::booked(cut, next, work, setting);
    harness::finish(work, setting, next).is_ok_and(|n| 16 <= n)
        && book::reads_as(book::read_book(work, setting), expected)
        && book::pairs_agree(work, setting)
}

fn try_cut(
    flash: &[u8],
    work: &mut [u8],
    setting: Setting,
    at: usize,
    choice: Choice,
    old: Book,
    new: Book,
    t: Tally,
) -> Tally {
    let read = cut_flash(flash, work, setting, at, choice);
    // A flash that is not read is not repaired, and no further command starts on it.
    let (repaired, right) = match read {
        Err(_) => (false, false),
        Ok(cut) => {
            let repaired = is_repaired(work, setting, cut);
            (repaired, is_right_then(work, setting, cut))
        }
    };
    t.counted(
        book::reads_as(read, old),
        book::reads_as(read, new),
        repaired,
        right,
    )
}

fn try_erase(
    flash: &[u8],
    work: &mut [u8],
    setting: Setting,
    at: usize,
    old: Book,
    new: Book,
    t: Tally,
) -> Tally {
    let count = choices::count(setting.granule);
    let mut sum = t;
    for i in 0..count {
        sum = try_cut(
            flash,
            work,
            setting,
            at,
            choices::choice_of(i, setting.granule),
            old,
            new,
            sum,
        );
    }
    sum
}

// The cuts at the next step of a job.
fn try_next(
    flash: &[u8],
    work: &mut [u8],
    setting: Setting,
    next: Option<Step>,
    old: Book,
    new: Book,
    t: Tally,
) -> Tally {
    match next {
        None => t,
        Some(Step::Program(_, _)) => {
            try_cut(flash, work, setting, 0, Choice::Lowest(0), old, new, t)
        }
        Some(Step::Erase(at)) => try_erase(flash, work, setting, at, old, new, t),
    }
}

// ---- one command

// Every cut of a job, on a flash that starts as the image on which the job was started.
fn try_job(
    flash: &mut [u8],
    work: &mut [u8],
    setting: Setting,
    mut job: Job,
    old: Book,
    new: Book,
) -> Tally {
    let mut sum = Tally::default();
    for _ in 0..job.remaining() {
        sum = try_next(flash, work, setting, job.next_step(), old, new, sum);
        let _ = job.run(flash, 1);
    }
    sum
}

// The reading of an image and the job of a command that starts on it.
fn started(image: &[u8], setting: Setting, command: Command) -> Result<(Book, Job), Refusal> {
    let job = harness::begin(image, setting, command)?;
    Ok((book::read_book(image, setting)?, job))
}

// Starts a command on an image, and tries every cut of its job on a flash that starts as this image.
fn try_start(
    rt: &impl Print,
    image: &[u8],
    flash: &mut [u8],
    work: &mut [u8],
    setting: Setting,
    command: Command,
) -> io::Result<()> {
    copy(image, flash);
    match started(image, setting, command) {
        Err(why) => println!(rt; "refused {}", why.number()),
        Ok((old, job)) => {
            let new = book::booked(old, command, image, setting);
            let steps = job.remaining();
            let sum = try_job(flash, work, setting, job, old, new);
            printing::print_tally(rt, steps, sum)
        }
    }
}

fn try_command(
    rt: &impl Print,
    image: &[u8],
    setting: Setting,
    command: Command,
) -> io::Result<()> {
    let n = image.len();
    if LONGEST < n {
        return Ok(());
    }
    let mut flash = image_buffer();
    let mut work = image_buffer();
    try_start(rt, image, &mut flash[..n], &mut work[..n], setting, command)
}

// ---- all of them

fn try_slot(rt: &impl Print, image: &[u8], setting: Setting, slot: SlotNo) -> io::Result<()> {
    printing::print_command(rt, "enable", slot)?;
    try_command(rt, image, setting, Command::Enable(slot))?;
    printing::print_command(rt, "disable", slot)?;
    try_command(rt, image, setting, Command::Disable(slot))?;
    printing::print_command(rt, "rename", slot)?;
    try_command(rt, image, setting, Command::Rename(slot))?;
    printing::print_command(rt, "delete", slot)?;
    try_command(rt, image, setting, Command::Delete(slot))
}

fn try_image(rt: &impl Print, image: &[u8], setting: Setting) -> io::Result<()> {
    try_slot(rt, image, setting, SlotNo(0))?;
    try_slot(rt, image, setting, SlotNo(1))?;
    try_slot(rt, image, setting, SlotNo(2))?;
    print!(rt; "create 4096: ")?;
    try_command(rt, image, setting, Command::Create(4096))?;
    print!(rt; "repair: ")?;
    try_command(rt, image, setting, Command::Repair)
}

fn try_file(rt: &(impl Files + Print), path: &str, setting: Setting) -> io::Result<()> {
    printing::print_image(rt, path, choices::count(setting.granule))?;
    let mut image = image_buffer();
    let mut file = File::open(rt, path)?;
    let mut rest = &mut image[..];
    let got = io::copy(&mut file.by_ref().take(LONGEST as u64), &mut rest)?;
    let n = (got as usize).min(LONGEST);
    try_image(rt, &image[..n], setting)
}

fn main(rt: HostRuntime) -> io::Result<()> {
    let setting = Setting {
        granule: SMALLEST,
        spt0: 0x4000,
        spt1: 0x5000,
    };
    try_file(&rt, "quarry_sent.img", setting)?;
    try_file(&rt, "highest_506.img", setting)?;
    try_file(&rt, "highest_507.img", setting)?;
    try_file(&rt, "moved_sent.img", setting)?;
    try_file(&rt, "moved_three.img", setting)?;
    try_file(&rt, "first_copies_damaged.img", setting)?;
    try_file(&rt, "second_copies_damaged.img", setting)?;
    try_file(&rt, "four_places.img", setting)?;
    try_file(&rt, "moved_offset_2048.img", setting)?;
    try_file(&rt, "two_shapes.img", setting)?;
    try_file(&rt, "deleted.img", setting)?;
    let middle = Setting {
        granule: 32768,
        spt0: 0x10000,
        spt1: 0x18000,
    };
    try_file(&rt, "middle.img", middle)?;
    let wide = Setting {
        granule: 65536,
        spt0: 0x20000,
        spt1: 0x30000,
    };
    try_file(&rt, "wide.img", wide)
}

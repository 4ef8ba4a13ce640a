// Runs the cases of document 01, and of document 02, Nos. 2, 9 and 5, on the images under data/ and prints what happens.
#![tactic(auto)]

ghost use Rattle.std.specs.Prelude.{◌≡◌, length};

use commands::Command;
use rules::{EntryNo, PlaceNo, Setting, SlotNo};
use std::fs::File;
use std::io;
use std::io::Read;
use std::rt::Files;

mod printing;

// The length of the longest of the images.
const LONGEST: usize = 528384;

const CPB0: usize = 0x6000;

const CPB1: usize = 0x7000;

fn image_buffer() -> [u8; LONGEST]
    ensures { 528384 ≡ length result }
{
    [0; LONGEST]
}

fn quarry() -> Setting {
    Setting {
        granule: 4096,
        spt0: 0x4000,
        spt1: 0x5000,
    }
}

// ---- what the cases do

// Starts a command, does all its steps and prints how many, or the refusal.
fn finish(rt: &impl Print, image: &mut [u8], command: Command) -> io::Result<()> {
    printing::print_command(rt, command)?;
    printing::print_done(rt, harness::finish(image, quarry(), command))
}

fn finish_rename(rt: &impl Print, image: &mut [u8], name: &[u8]) -> io::Result<()> {
    let begun = commands::start_rename(image, quarry(), SlotNo(0), name);
    print!(rt; "rename 0 ")?;
    rt.write_all(name)?;
    print!(rt; ": ")?;
    printing::print_done(rt, harness::run_begun(image, begun))
}

// Creates P4 of 0x1000, which becomes the entry of this number.
fn create_p4(rt: &impl Print, image: &mut [u8], entry: EntryNo) -> io::Result<()> {
    let begun = commands::start_create(image, quarry(), b"P4", 0x1000);
    print!(rt; "create P4 4096: ")?;
    printing::print_done(rt, harness::run_begun(image, begun))?;
    printing::print_entry_start(rt, image, entry)?;
    print_order(rt, image)
}

// A command cut after some steps.
fn cut(rt: &impl Print, image: &mut [u8], command: Command, steps: usize) -> io::Result<()> {
    if let Ok(mut job) = harness::begin(image, quarry(), command) {
        let _ = job.run(image, steps);
    }
    printing::print_command(rt, command)?;
    printing::print_cut(rt, steps)
}

fn print_order(rt: &impl Print, image: &[u8]) -> io::Result<()> {
    printing::print_order(rt, image, quarry())
}

fn print_place(rt: &impl Print, image: &[u8], place: PlaceNo) -> io::Result<()> {
    print!(rt; "CPB0 ")?;
    printing::print_place(rt, image, CPB0, place)?;
    print!(rt; "CPB1 ")?;
    printing::print_place(rt, image, CPB1, place)
}

// ---- the cases

fn enable_third(rt: &impl Print, image: &mut [u8], place: PlaceNo) -> io::Result<()> {
    finish(rt, image, Command::Enable(SlotNo(2)))?;
    print_place(rt, image, place)?;
    print_order(rt, image)
}

fn enable_then_disable(rt: &impl Print, image: &mut [u8]) -> io::Result<()> {
    finish(rt, image, Command::Enable(SlotNo(0)))?;
    print_place(rt, image, PlaceNo(2))?;
    print_order(rt, image)?;
    finish(rt, image, Command::Disable(SlotNo(0)))?;
    print_order(rt, image)
}

fn refused_slots(rt: &impl Print, image: &mut [u8]) -> io::Result<()> {
    finish(rt, image, Command::Disable(SlotNo(2)))?;
    finish(rt, image, Command::Enable(SlotNo(3)))?;
    finish(rt, image, Command::Disable(SlotNo(3)))
}

fn empty_slots(rt: &impl Print, image: &mut [u8]) -> io::Result<()> {
    finish(rt, image, Command::Enable(SlotNo(1)))?;
    finish(rt, image, Command::Enable(SlotNo(2)))?;
    print_order(rt, image)
}

// The only place holds slot 1.
fn one_place(rt: &impl Print, image: &mut [u8]) -> io::Result<()> {
    finish(rt, image, Command::Enable(SlotNo(1)))?;
    finish(rt, image, Command::Enable(SlotNo(2)))?;
    finish(rt, image, Command::Disable(SlotNo(1)))?;
    finish(rt, image, Command::Enable(SlotNo(2)))?;
    print_order(rt, image)
}

fn two_shapes(rt: &impl Print, image: &mut [u8]) -> io::Result<()> {
    print_order(rt, image)?;
    finish(rt, image, Command::Enable(SlotNo(2)))?;
    finish(rt, image, Command::Repair)?;
    finish(rt, image, Command::Enable(SlotNo(2)))?;
    print_order(rt, image)
}

fn cut_then_repaired(rt: &impl Print, image: &mut [u8]) -> io::Result<()> {
    cut(rt, image, Command::Enable(SlotNo(2)), 15)?;
    print_place(rt, image, PlaceNo(2))?;
    print_order(rt, image)?;
    finish(rt, image, Command::Repair)?;
    enable_third(rt, image, PlaceNo(3))
}

fn rewrite_cut(rt: &impl Print, image: &mut [u8], steps: usize) -> io::Result<()> {
    cut(rt, image, Command::Enable(SlotNo(2)), steps)?;
    print_order(rt, image)
}

// A slot in the order is not deleted; the room of one that is deleted is found again.
fn deleted_then_created(rt: &impl Print, image: &mut [u8]) -> io::Result<()> {
    finish(rt, image, Command::Delete(SlotNo(1)))?;
    finish(rt, image, Command::Delete(SlotNo(2)))?;
    print_order(rt, image)?;
    create_p4(rt, image, EntryNo(8))
}

fn names(rt: &impl Print, image: &mut [u8]) -> io::Result<()> {
    finish_rename(rt, image, b"fifteen_bytes_x")?;
    finish_rename(rt, image, b"sixteen_bytes_xx")?;
    print_order(rt, image)
}

// ---- which case on which image

#[derive(Clone, Copy)]
enum Case {
    Enable(SlotNo),
    EnableThird(PlaceNo),
    EnableThenDisable,
    RefusedSlots,
    EmptySlots,
    OnePlace,
    TwoShapes,
    CutThenRepaired,
    RewriteCut(usize),
    Disable(SlotNo),
    Names,
    OrderOnly,
    DeletedThenCreated,
    Created(EntryNo),
}

fn run_case(rt: &impl Print, case: Case, image: &mut [u8]) -> io::Result<()> {
    match case {
        Case::Enable(slot) => finish(rt, image, Command::Enable(slot)),
        Case::EnableThird(place) => enable_third(rt, image, place),
        Case::EnableThenDisable => enable_then_disable(rt, image),
        Case::RefusedSlots => refused_slots(rt, image),
        Case::EmptySlots => empty_slots(rt, image),
        Case::OnePlace => one_place(rt, image),
        Case::TwoShapes => two_shapes(rt, image),
        Case::CutThenRepaired => cut_then_repaired(rt, image),
        Case::RewriteCut(steps) => rewrite_cut(rt, image, steps),
        Case::Disable(slot) => finish(rt, image, Command::Disable(slot)),
        Case::Names => names(rt, image),
        Case::OrderOnly => print_order(rt, image),
        Case::DeletedThenCreated => deleted_then_created(rt, image),
        Case::Created(entry) => create_p4(rt, image, entry),
    }
}

fn on_image(rt: &(impl Files + Print), title: &str, path: &str, case: Case) -> io::Result<()> {
    print!(rt; "{title}")?;
    let mut image = image_buffer();
    let mut file = File::open(rt, path)?;
    let mut rest = &mut image[..];
    let got = io::copy(&mut file.by_ref().take(LONGEST as u64), &mut rest)?;
    let n = (got as usize).min(LONGEST);
    run_case(rt, case, &mut image[..n])
}

// Cases 1 to 6: the order, single places, a cut.
fn the_order_and_places(rt: &(impl Files + Print)) -> io::Result<()> {
    on_image(rt, "case 1\n", "quarry.img", Case::OrderOnly)?;
    on_image(
        rt,
        "case 2\n",
        "quarry_sent.img",
        Case::EnableThird(PlaceNo(2)),
    )?;
    on_image(rt, "case 3\n", "quarry_sent.img", Case::Enable(SlotNo(1)))?;
    on_image(rt, "case 4\n", "quarry_sent.img", Case::EnableThenDisable)?;
    on_image(rt, "case 5\n", "quarry.img", Case::RefusedSlots)?;
    on_image(rt, "case 6\n", "quarry_sent.img", Case::CutThenRepaired)
}

// Cases 7 to 9: the last place, a rewrite cut, half-cleared starts.
fn rewrites(rt: &(impl Files + Print)) -> io::Result<()> {
    on_image(
        rt,
        "case 7, highest used place 506\n",
        "highest_506.img",
        Case::EnableThird(PlaceNo(507)),
    )?;
    on_image(
        rt,
        "case 7, highest used place 507\n",
        "highest_507.img",
        Case::EnableThird(PlaceNo(507)),
    )?;
    on_image(
        rt,
        "case 8, after 4,101 steps\n",
        "highest_507.img",
        Case::RewriteCut(4101),
    )?;
    on_image(
        rt,
        "case 8, after 4,102 steps\n",
        "highest_507.img",
        Case::RewriteCut(4102),
    )?;
    on_image(
        rt,
        "case 9, slot 0\n",
        "moved.img",
        Case::Disable(SlotNo(0)),
    )?;
    on_image(
        rt,
        "case 9, slot 1\n",
        "moved.img",
        Case::Disable(SlotNo(1)),
    )
}

// Case 10: names, and tables of many entries.
fn names_and_tables(rt: &(impl Files + Print)) -> io::Result<()> {
    on_image(rt, "case 10, names\n", "quarry.img", Case::Names)?;
    on_image(
        rt,
        "case 10, 127 entries\n",
        "entries_127.img",
        Case::OrderOnly,
    )?;
    on_image(
        rt,
        "case 10, 128 entries\n",
        "entries_128.img",
        Case::OrderOnly,
    )?;
    on_image(rt, "case 10, 0 bytes\n", "no_bytes.img", Case::OrderOnly)
}

// Document 02, Nos. 2, 9 and 5.
fn of_document_02(rt: &(impl Files + Print)) -> io::Result<()> {
    on_image(rt, "empty slots\n", "quarry.img", Case::EmptySlots)?;
    on_image(
        rt,
        "a slot of which only byte 4,095 was sent\n",
        "last_byte_sent.img",
        Case::EnableThird(PlaceNo(2)),
    )?;
    on_image(
        rt,
        "offset 0x28, 507 places\n",
        "offset_0x28.img",
        Case::EnableThird(PlaceNo(2)),
    )?;
    on_image(
        rt,
        "offset 4,088, 1 place\n",
        "one_place.img",
        Case::OnePlace,
    )?;
    on_image(
        rt,
        "offset 0x20, 4 places\n",
        "four_places.img",
        Case::EnableThird(PlaceNo(3)),
    )?;
    on_image(
        rt,
        "two copies of different shape\n",
        "two_shapes.img",
        Case::TwoShapes,
    )?;
    on_image(
        rt,
        "create in the room of a deleted slot\n",
        "quarry.img",
        Case::DeletedThenCreated,
    )?;
    on_image(
        rt,
        "create where a place holds the lowest free start\n",
        "held.img",
        Case::Created(EntryNo(8)),
    )
}

fn main(rt: HostRuntime) -> io::Result<()> {
    the_order_and_places(&rt)?;
    rewrites(&rt)?;
    names_and_tables(&rt)?;
    of_document_02(&rt)
}

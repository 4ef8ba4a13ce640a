// Lines that ask and change nothing. Each function answers whether the line was right.
use super::desk::Desk;
use super::printing;
use fields::bounds::part_of;
use rules::{Setting, SlotNo};
use script_lines::Question;
use std::io;
use std::io::Write;

pub fn ask<W: Write>(desk: Desk, out: &mut W, room: &[u8], asked: Question) -> io::Result<bool> {
    let setting = desk.setting;
    let length = desk.length.min(room.len());
    let image = &room[0..length];
    match asked {
        Question::Order(places) => tell_order(out, setting, image, places),
        Question::Listing => tell_listing(out, setting, image),
        Question::Slot(slot) => tell_slot(out, setting, image, slot),
        Question::Peek(at, n) => tell_bytes(out, image, at, n),
        Question::Sum => tell_sum(out, image),
        Question::Dumps(a, m, b, n) => tell_dump(out, image, a, m, b, n),
    }
}

// The longest row.
fn row_room() -> [u32; rules::MOST_PLACES] {
    [0; rules::MOST_PLACES]
}

fn tell_order<W: Write>(
    out: &mut W,
    setting: Setting,
    image: &[u8],
    places: usize,
) -> io::Result<bool> {
    let mut row = row_room();
    tell_order_in(out, setting, image, places, &mut row)
}

fn tell_order_in<W: Write>(
    out: &mut W,
    setting: Setting,
    image: &[u8],
    places: usize,
    row: &mut [u32],
) -> io::Result<bool> {
    let n = places.min(row.len());
    match reading::order_list(image, setting, &mut row[0..n]) {
        Err(why) => printing::print_refused(out, why)?,
        Ok(count) => {
            let end = count.min(row.len());
            printing::print_order(out, &row[0..end])?;
        }
    }
    Ok(true)
}

fn tell_listing<W: Write>(out: &mut W, setting: Setting, image: &[u8]) -> io::Result<bool> {
    printing::print_listing(out, setting, image)?;
    Ok(true)
}

fn tell_slot<W: Write>(
    out: &mut W,
    setting: Setting,
    image: &[u8],
    slot: SlotNo,
) -> io::Result<bool> {
    match reading::slot_info(image, setting, slot) {
        Err(why) => printing::print_refused(out, why)?,
        Ok(info) => {
            let name = reading::slot_name(image, setting, slot);
            printing::print_slot(out, slot, info, name)?;
        }
    }
    Ok(true)
}

fn tell_bytes<W: Write>(out: &mut W, image: &[u8], at: usize, n: usize) -> io::Result<bool> {
    let Some(part) = part_of(image.len(), at, n) else {
        return Ok(false);
    };
    printing::print_bytes(out, &image[part])?;
    Ok(true)
}

fn tell_sum<W: Write>(out: &mut W, image: &[u8]) -> io::Result<bool> {
    printing::print_number(out, b"sum", answer_parts::sum::fnv1a(image))?;
    Ok(true)
}

fn tell_dump<W: Write>(
    out: &mut W,
    image: &[u8],
    a: usize,
    m: usize,
    b: usize,
    n: usize,
) -> io::Result<bool> {
    let (Some(one), Some(other)) = (part_of(image.len(), a, m), part_of(image.len(), b, n)) else {
        return Ok(false);
    };
    let dump = dumps::standing_dump(&image[one], &image[other]);
    printing::print_dump(out, dump.len(), answer_parts::sum::fnv1a(dump))?;
    Ok(true)
}

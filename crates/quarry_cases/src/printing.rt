// What the cases print.
use book_orders::Order;
use commands::Command;
use rules::{EntryNo, PlaceNo, Refusal, Setting, SlotNo};
use std::io;

fn print_named(rt: &impl Print, what: &str, slot: SlotNo) -> io::Result<()> {
    print!(rt; "{what} {}: ", slot.0)
}

pub fn print_command(rt: &impl Print, command: Command) -> io::Result<()> {
    match command {
        Command::Enable(slot) => print_named(rt, "enable", slot),
        Command::Disable(slot) => print_named(rt, "disable", slot),
        Command::Rename(slot) => print_named(rt, "rename", slot),
        Command::Create(length) => print!(rt; "create {length}: "),
        Command::Delete(slot) => print_named(rt, "delete", slot),
        Command::Repair => print!(rt; "repair: "),
    }
}

pub fn print_done(rt: &impl Print, done: Result<usize, Refusal>) -> io::Result<()> {
    match done {
        Ok(n) => println!(rt; "{n} steps"),
        Err(why) => print_refusal(rt, why),
    }
}

fn print_refusal(rt: &impl Print, why: Refusal) -> io::Result<()> {
    println!(rt; "refused {}", why.number())
}

pub fn print_cut(rt: &impl Print, steps: usize) -> io::Result<()> {
    println!(rt; "cut after {steps} steps")
}

// The boot order, or the refusal.
pub fn print_order(rt: &impl Print, image: &[u8], setting: Setting) -> io::Result<()> {
    match book::read_book(image, setting) {
        Err(why) => print_refusal(rt, why),
        Ok(kept) => {
            print!(rt; "order")?;
            print_slots(rt, kept.order)?;
            println!(rt;)
        }
    }
}

fn print_slots(rt: &impl Print, order: Order) -> io::Result<()> {
    for slot in order.row.iter().take(order.count) {
        print!(rt; " {slot}")?;
    }
    Ok(())
}

// The value of eight bytes; 0 where they pass the end.
fn value_at(image: &[u8], at: usize) -> u64 {
    if image.len() < 8 {
        return 0;
    }
    if image.len() - 8 < at {
        return 0;
    }
    fields::number::<8>(image, at)
}

// What a place of the pointer block at an address holds.
pub fn print_place(rt: &impl Print, image: &[u8], block: usize, place: PlaceNo) -> io::Result<()> {
    let value = value_at(image, place_at(image, block, place));
    println!(rt; "place {}: {value:016x}", place.0)
}

// Where it is, by the offset in the block's header; 0 where the block passes the image's end.
fn place_at(image: &[u8], block: usize, place: PlaceNo) -> usize {
    if image.len() < rules::BLOCK_SIZE {
        return 0;
    }
    if image.len() - rules::BLOCK_SIZE < block {
        return 0;
    }
    if rules::MOST_PLACES <= place.0 {
        return 0;
    }
    block + fields::number::<4>(image, block + 0x10) as usize + 8 * place.0
}

// Where the entry of a number starts, by the table at 0x4000.
pub fn print_entry_start(rt: &impl Print, image: &[u8], entry: EntryNo) -> io::Result<()> {
    let value = value_at(image, entry_at(entry));
    println!(rt; "SPT0 entry {} start: {value:016x}", entry.0)
}

fn entry_at(entry: EntryNo) -> usize {
    if 127 <= entry.0 {
        return 0;
    }
    0x4030 + 32 * entry.0
}

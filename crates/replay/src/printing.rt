// Answers on standard output, each a line, but for the listing.
use answer_parts::put_number;
use codes::judgements::fault_code;
use rules::{EntryNo, Fault, Refusal, Setting, SlotInfo, SlotNo};
use std::io;
use std::io::Write;

// The front of a buffer.
fn write_front<W: Write>(out: &mut W, line: &[u8], end: usize) -> io::Result<()> {
    let n = end.min(line.len());
    out.write_all(&line[0..n])
}

// The front of a buffer as a line.
fn write_line<W: Write>(out: &mut W, line: &mut [u8], end: usize) -> io::Result<()> {
    let after = text::put_byte(line, end, b'\n');
    write_front(out, line, after)
}

// A word.
pub fn print_word<W: Write>(out: &mut W, word: &[u8]) -> io::Result<()> {
    let mut line = [0u8; 64];
    let end = text::put_bytes(&mut line, 0, word);
    write_line(out, &mut line, end)
}

// A word and a number.
pub fn print_number<W: Write>(out: &mut W, word: &[u8], number: u64) -> io::Result<()> {
    let mut line = [0u8; 64];
    let end = text::put_bytes(&mut line, 0, word);
    let after = put_number(&mut line, end, number);
    write_line(out, &mut line, after)
}

// The number of a refusal, and where no table copy stands the rule and the entry told for SPT0 and for SPT1.
pub fn print_refused<W: Write>(out: &mut W, why: Refusal) -> io::Result<()> {
    let mut line = [0u8; 128];
    let mut end = text::put_bytes(&mut line, 0, b"refused");
    end = put_number(&mut line, end, why.number() as u64);
    if let Refusal::NoMagic(faults) | Refusal::NoTable(faults) = why {
        end = put_fault(&mut line, end, faults.fault0);
        end = put_fault(&mut line, end, faults.fault1);
    }
    write_line(out, &mut line, end)
}

fn put_fault(line: &mut [u8], at: usize, fault: Option<Fault>) -> usize {
    let code = fault_code(fault);
    let end = put_number(line, at, code.rule as u64);
    put_number(line, end, code.entry as u64)
}

// Slot numbers in their order.
pub fn print_order<W: Write>(out: &mut W, row: &[u32]) -> io::Result<()> {
    let mut line = [0u8; 4096];
    let end = text::put_bytes(&mut line, 0, b"order");
    let after = answer_parts::put_numbers(&mut line, end, row);
    write_line(out, &mut line, after)
}

// The listing of an image, in as many lines as it has. The buffer takes it whole (`listing_for_whole`).
pub fn print_listing<W: Write>(out: &mut W, setting: Setting, image: &[u8]) -> io::Result<()> {
    let mut lines = [0u8; 65536];
    let end = report::listing_for(image, setting, &mut lines);
    out.write_all(&lines[..end])
}

// A slot's number, entry, name and info.
pub fn print_slot<W: Write>(
    out: &mut W,
    slot: SlotNo,
    info: SlotInfo,
    name: &[u8],
) -> io::Result<()> {
    let mut line = [0u8; 256];
    let mut end = text::put_bytes(&mut line, 0, b"slot");
    end = put_number(&mut line, end, slot.0 as u64);
    end = put_number(&mut line, end, row_of(info.entry));
    end = text::put_byte(&mut line, end, b' ');
    end = answer_parts::hex::put(&mut line, end, name);
    end = put_number(&mut line, end, info.start);
    end = put_number(&mut line, end, info.size);
    end = put_number(&mut line, end, info.flags);
    write_line(out, &mut line, end)
}

fn row_of(entry: EntryNo) -> u64 {
    entry.0 as u64
}

// The length of a dump and the sum of its bytes.
pub fn print_dump<W: Write>(out: &mut W, length: usize, sum: u64) -> io::Result<()> {
    let mut line = [0u8; 64];
    let mut end = text::put_bytes(&mut line, 0, b"dump");
    end = put_number(&mut line, end, length as u64);
    end = put_number(&mut line, end, sum);
    write_line(out, &mut line, end)
}

// Bytes in hexadecimal, however many.
pub fn print_bytes<W: Write>(out: &mut W, bytes: &[u8]) -> io::Result<()> {
    out.write_all(b"bytes")?;
    if 0 < bytes.len() {
        out.write_all(b" ")?;
        write_hex(out, bytes)?;
    }
    out.write_all(b"\n")
}

// As many bytes as are put into a buffer of 4,096 at a time.
const PIECE: usize = 2048;

fn write_hex<W: Write>(out: &mut W, bytes: &[u8]) -> io::Result<()> {
    for piece in bytes.chunks(PIECE) {
        write_piece(out, piece)?;
    }
    Ok(())
}

fn write_piece<W: Write>(out: &mut W, bytes: &[u8]) -> io::Result<()> {
    let mut line = [0u8; 4096];
    let end = answer_parts::hex::put(&mut line, 0, bytes);
    write_front(out, &line, end)
}

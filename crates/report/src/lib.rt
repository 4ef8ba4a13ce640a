// The listing of an image, put into a lent buffer: its boot order, then its dead places.
#![tactic(auto)]

ghost use Rattle.std.specs.Prelude.{◌≡◌, ◌≤◌, length, take};
ghost use Rattle.text.specs.Put.{Put};
ghost use Rattle.dead_places.specs.DeadLines.{numbered};
ghost use Rattle.report.specs.Listing.{listing, listing_for, parts, refusal, slot_line, info_text};

use rules::{Setting, SlotNo};
use views::opened::{self, Opened};

// What the listing program has fixed. More bytes than the limit are refused.
const GRANULE: usize = 4096;

const SPT0: usize = 0x4000;

const SPT1: usize = 0x5000;

const IMAGE_LIMIT: usize = 65536;

// Puts the listing program's listing at the front of `out`, and answers how many bytes it has.
pub fn listing_of(image: &[u8], out: &mut [u8]) -> usize
    ensures told { Put out.old 0 (listing image.now) out.new result }
    ensures inside { (result ≤ length out.new) × (result ≡ length (take result out.new)) }
{
    if IMAGE_LIMIT < image.len() {
        return put_refusal(out, 1);
    }
    listing_for(
        image,
        Setting {
            granule: GRANULE,
            spt0: SPT0,
            spt1: SPT1,
        },
        out,
    )
}

// The same for any setting and an image of any length.
pub fn listing_for(image: &[u8], setting: Setting, out: &mut [u8]) -> usize
    ensures told { Put out.old 0 (listing_for setting image.now) out.new result }
    ensures inside { (result ≤ length out.new) × (result ≡ length (take result out.new)) }
{
    match opened::open(image, setting) {
        Err(why) => put_refusal(out, why.number()),
        Ok(flash) => put_parts(&flash, out),
    }
}

// The boot order and the dead places, by where things are.
fn put_parts(flash: &Opened<'_>, out: &mut [u8]) -> usize
    ensures { Put out.old 0 (parts flash.now.setting flash.now.image.now flash.now.view) out.new result }
{
    let t = flash.table();
    let p = flash.pointers();
    let mut row = [0; rules::MOST_ENTRIES];
    let count = boot_order::write_order(&t, &p, &mut row);
    let mut end = text::put_bytes(out, 0, b"order slot name start length\n");
    end = put_lines(flash.image, flash.setting, &row[..count], out, end);
    dead_places::put_dead(&t, &p, out, end)
}

fn put_refusal(out: &mut [u8], number: u8) -> usize
    ensures { Put out.old 0 (refusal number) out.new result }
{
    let mut end = text::put_bytes(out, 0, b"refused ");
    end = text::put_decimal(out, end, number as u64);
    text::put_byte(out, end, b'\n')
}

// A line for each slot of the row.
fn put_lines(image: &[u8], setting: Setting, row: &[u32], out: &mut [u8], at: usize) -> usize
    ensures { Put out.old at (numbered (slot_line setting image.now) 1 row.now)
        out.new result }
{
    let mut end = at;
    for i in 0..row.len() {
        end = put_line(image, setting, i + 1, SlotNo(row[i]), out, end);
    }
    end
}

fn put_line(
    image: &[u8],
    setting: Setting,
    rank: usize,
    slot: SlotNo,
    out: &mut [u8],
    at: usize,
) -> usize
    ensures { Put out.old at (slot_line setting image.now rank slot.0) out.new result }
{
    let mut end = text::put_decimal(out, at, rank as u64);
    end = text::put_byte(out, end, b' ');
    end = text::put_decimal(out, end, slot.0 as u64);
    end = text::put_byte(out, end, b' ');
    end = text::put_shown(out, end, reading::slot_name(image, setting, slot));
    put_info(image, setting, slot, out, end)
}

fn put_info(image: &[u8], setting: Setting, slot: SlotNo, out: &mut [u8], at: usize) -> usize
    ensures { Put out.old at (info_text setting image.now slot.0) out.new result }
{
    match reading::slot_info(image, setting, slot) {
        Err(_) => text::put_byte(out, at, b'\n'),
        Ok(info) => {
            let mut end = text::put_byte(out, at, b' ');
            end = text::put_decimal(out, end, info.start);
            end = text::put_byte(out, end, b' ');
            end = text::put_decimal(out, end, info.size);
            text::put_byte(out, end, b'\n')
        }
    }
}

// Prints the listing of the image on standard input: its boot order, then its dead places.
#![tactic(auto)]

use std::io;
use std::io::{Read, Write};

// Room for one byte more than an image may have, so that a longer one is seen.
fn image_buffer() -> [u8; 65537] {
    [0; 65537]
}

fn main(rt: HostRuntime) -> io::Result<()> {
    let mut image = image_buffer();
    let mut rest = &mut image[..];
    let got = io::copy(&mut rt.reader().take(65537), &mut rest)?;
    let n = (got as usize).min(image.len());
    let mut out = [0u8; 65536];
    let end = report::listing_of(&image[..n], &mut out);
    io::writer(&rt).write_all(&out[..end])
}

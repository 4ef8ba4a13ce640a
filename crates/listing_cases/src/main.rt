// Prints, for each file that an argument names, the name and the listing of the image in it.
#![tactic(auto)]

use std::env::FillError;
use std::fs::File;
use std::io::Read;
use std::rt::{Env, Files};
use std::{io, str};

// Room for one byte more than an image may have, so that a longer one is seen.
fn image_buffer() -> [u8; 65537] {
    [0; 65537]
}

fn list_image<R: Read>(rt: &impl Print, file: &mut R) -> io::Result<()> {
    let mut image = image_buffer();
    let mut rest = &mut image[..];
    let got = io::copy(&mut file.by_ref().take(65537), &mut rest)?;
    let n = (got as usize).min(image.len());
    let mut out = [0u8; 65536];
    let end = report::listing_of(&image[..n], &mut out);
    rt.write_all(&out[..end])
}

// A name that is not UTF-8 opens no file.
fn list_file(rt: &(impl Files + Print + Eprint), path: &[u8]) -> io::Result<()> {
    rt.write_all(path)?;
    println!(rt;)?;
    let name = match str::from_utf8(path) {
        Ok(name) => name,
        Err(error) => return eprintln!(rt; "{error}"),
    };
    match File::open(rt, name) {
        Ok(mut file) => list_image(rt, &mut file),
        Err(error) => eprintln!(rt; "{name}: {error}"),
    }
}

fn main(rt: HostRuntime) -> io::Result<()> {
    let mut path = [0u8; 4096];
    for i in 1..usize::MAX {
        match rt.arg(i, &mut path) {
            Ok(length) => list_file(&rt, &path[..length])?,
            // no path is so long
            Err(FillError::TooLong) => list_file(&rt, b"")?,
            Err(FillError::NotPresent) => break,
        }
    }
    Ok(())
}

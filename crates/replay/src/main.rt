// Replays a script from standard input against an image in memory, and prints what it asks.
#![tactic(auto)]

mod printing; // answers on standard output
mod desk; // what a script works on
mod changes; // lines that change the image or the setting
mod questions; // lines that ask
mod starts; // lines that start a job
mod steps; // lines that do steps of the current job
mod input; // pieces of standard input, made into lines

use std::io;

// The longest image.
fn image_room() -> [u8; 1048576] {
    [0; 1048576]
}

// The longest line.
fn line_room() -> [u8; 16384] {
    [0; 16384]
}

fn main(rt: HostRuntime) -> io::Result<()> {
    let mut image = image_room();
    let mut line = line_room();
    input::replay(
        &mut rt.reader(),
        &mut io::writer(&rt),
        &mut image,
        &mut line,
    )
}

// Prints what comes of the files that its arguments name: one whose name ends in .book is run, any other is hashed.

#![tactic(auto)]

mod books;
mod hashes;

use std::{env, fs, io};

// One byte more than a book may have, so that one that is too long is seen to be; the messages are shorter.
fn print_file(rt: &HostRuntime, name: &str) -> io::Result<()> {
    let mut from = match fs::open(rt, name) {
        Ok(from) => from,
        Err(e) => return eprintln!(rt; "{name}: {e}"),
    };
    let mut file = [0u8; 65537];
    let size = input::read_full(&mut from, &mut file)?;
    if name.ends_with(".book") {
        books::print_run(rt, name, &file[..size])
    } else {
        hashes::print_all(rt, name, &file[..size])
    }
}

fn main(rt: HostRuntime) -> io::Result<()> {
    for name in env::args(&rt)?.skip(1) {
        print_file(&rt, name.as_str())?;
    }
    Ok(())
}

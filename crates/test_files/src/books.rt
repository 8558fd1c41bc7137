// Runs a book: its lines, below its name.
use std::io;

pub fn print_run(rt: &impl Print, name: &str, book: &[u8]) -> io::Result<()> {
    println!(rt; "{name}")?;
    runner::run(rt, book)
}

// What the test programs write to standard output: texts, numbers and digests. A write that fails is its error.

#![tactic(auto)]

use std::io;

pub fn print_text(rt: &impl Print, s: &[u8]) -> io::Result<()> {
    rt.write_all(s)
}

// A space, and the number in decimal.
pub fn print_number(rt: &impl Print, n: u64) -> io::Result<()> {
    print!(rt; " {n}")
}

// Two hexadecimal digits a byte.
pub fn print_bytes(rt: &impl Print, bytes: [u8; 32]) -> io::Result<()> {
    for b in bytes {
        print!(rt; "{b:02x}")?;
    }
    Ok(())
}

// Hashes a message. A line holds its name, the size of the pieces in which its bytes were fed (0: as one string), the blocks and
// the digest. The pieces end inside the blocks, on their ends and across them.
ghost use Rattle.std.specs.Prelude.{◌≡◌, ◌<◌};
ghost use Rattle.standard.specs.Hash.{hash};
ghost use Rattle.standard.specs.Sha256.{sha256};
ghost use Rattle.sha256.specs.Values.{digest_of};

use sha256::running;
use sha256::running::{Digest, Running};
use std::io;
use test_output::print_bytes;

fn print_line(rt: &impl Print, name: &str, size: usize, d: Digest) -> io::Result<()> {
    print!(rt; "{name} {size} {} ", d.blocks)?;
    print_bytes(rt, d.bytes)?;
    println!(rt)
}

// The hash of s, fed in pieces of `size` bytes.
fn in_pieces(s: &[u8], size: usize) -> Digest
    requires { 0 < size }
    ensures { digest_of result ≡ hash sha256 s.now }
{
    let mut h = Running::new();
    for piece in s.chunks(size) {
        h = h.update(piece);
    }
    h.finish().digest()
}

pub fn print_all(rt: &impl Print, name: &str, message: &[u8]) -> io::Result<()> {
    print_line(rt, name, 0, running::hash_of(message))?;
    for size in [1, 63, 64, 65, 200] {
        print_line(rt, name, size, in_pieces(message, size))?;
    }
    Ok(())
}

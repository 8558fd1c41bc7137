// FIPS 180-4 §6.2.2, last: the eight words as 32 bytes.
ghost use Rattle.std.specs.Prelude.{◌≡◌, ◌+◌, ◌≤◌, length};
ghost use Rattle.std.proofs.Math.Seq.{paste};
ghost use Rattle.standard.specs.Hash.{digest};
ghost use Rattle.standard.specs.Sha256.{sha256};
ghost use Rattle.compression.specs.Values.{eight_of};

use crate::rounds::Eight;

// Each word's four bytes, the highest first.
pub fn bytes_of(s: Eight) -> [u8; 32]
    ensures { result ≡ digest sha256 (eight_of s) }
{
    let words = [
        s.a.to_be_bytes(),
        s.b.to_be_bytes(),
        s.c.to_be_bytes(),
        s.d.to_be_bytes(),
        s.e.to_be_bytes(),
        s.f.to_be_bytes(),
        s.g.to_be_bytes(),
        s.h.to_be_bytes(),
    ];
    copies::part(words.as_flattened(), 0)
}

// The 32 bytes in a lent string, from `at` on.
pub fn put(out: &mut [u8], at: usize, s: Eight)
    requires { at + 32 ≤ length out.old }
    ensures { out.new ≡ paste out.old at (digest sha256 (eight_of s)) 32 }
{
    copies::copy(out, at, &bytes_of(s));
}

// The running hash: a value that each absorbed block hands on. A block that lies whole inside a lent string is hashed from
// that string; one that straddles an end, or holds padding, goes through the scratch block.
ghost use Rattle.std.specs.Prelude.{◌≡◌, cond, List, [], ◌++◌, ℕ, ◌+◌, ◌*◌, ◌^◌, ◌≤◌, ◌<◌, ltb, length, take};
ghost use Rattle.standard.specs.Hash.{padding, padded, hash};
ghost use Rattle.standard.specs.Sha256.{sha256};
ghost use Rattle.sha256.specs.Values.{digest_of};
ghost use Rattle.sha256.specs.Fed.{HasRead, Fed, Absorbed, Room};

use crate::padding;
use compression::rounds::Eight;
use compression::{digest, rounds};

#[derive(Clone, Copy)]
pub struct Running {
    pub words: Eight,
    // blocks absorbed so far
    pub blocks: u64,
    pub scratch: [u8; 64],
    // how many bytes of scratch wait for the rest of their block
    pub waiting: usize,
}

#[derive(Clone, Copy)]
pub struct Digest {
    pub bytes: [u8; 32],
    pub blocks: u64,
}

// Scratch with the bytes of s behind the first `fill`.
fn gathered(old: [u8; 64], fill: usize, s: &[u8]) -> [u8; 64]
    requires { fill + length s.now ≤ 64 }
    ensures { take (fill + length s.now) result ≡ take fill old ++ s.now }
{
    let mut scratch = old;
    copies::copy(&mut scratch, fill, s);
    scratch
}

// The next block: the part of the lent string where it is a whole one, else scratch.
fn pick<'a>(part: &'a [u8], scratch: &'a [u8; 64]) -> &'a [u8]
    ensures { result.now ≡ cond (ltb (length part.now) 64) scratch.now part.now }
{
    if part.len() < 64 {
        return &scratch[..];
    }
    part
}

impl Running {
    // Nothing read yet.
    pub fn new() -> Running
        ensures { HasRead [] result }
    {
        Running {
            words: rounds::initial(),
            blocks: 0,
            scratch: [0u8; 64],
            waiting: 0,
        }
    }

    pub fn absorb(self, block: &[u8]) -> Running
        requires { (length block.now ≡ 64) × (self.blocks + 1 < 2 ^ 64) }
        ensures { Absorbed self block.now result }
    {
        Running {
            words: rounds::compress(self.words, block),
            blocks: self.blocks + 1,
            waiting: 0,
            ..self
        }
    }

    // The next part of a string, at most to the end of a block.
    fn step(self, part: &[u8]) -> Running
        requires { (self.waiting + length part.now ≤ 64) × (self.blocks + 1 < 2 ^ 64) }
        ensures { Fed self part.now result }
    {
        let fill = self.waiting;
        let n = part.len();
        // A whole block is absorbed from where it lies.
        let scratch = gathered(self.scratch, fill, &part[..n % 64]);
        if fill + n < 64 {
            return Running {
                scratch,
                waiting: fill + n,
                ..self
            };
        }
        self.absorb(pick(part, &scratch))
    }

    // All of s.
    pub fn update(self, s: &[u8]) -> Running
        requires { Room self (length s.now) }
        ensures { Fed self s.now result }
    {
        let mut h = self;
        let mut rest = s;
        while !rest.is_empty() {
            let n = (64 - h.waiting).min(rest.len());
            let (part, behind) = rest.split_at(n);
            h = h.step(part);
            rest = behind;
        }
        h
    }

    // The padding, in one block or two.
    pub fn finish(self) -> Running
        requires { Room self 128 }
        ensures { Fed self (padding sha256 (64 * self.blocks + self.waiting)) result }
    {
        let fill = self.waiting;
        let bits = (64 * self.blocks + fill as u64).wrapping_mul(8);
        let first = padding::marked(self.scratch, fill);
        if fill < 56 {
            let last = padding::with_length(first, bits);
            return self.absorb(&last);
        }
        let next = self.absorb(&first);
        let last = padding::with_length([0u8; 64], bits);
        next.absorb(&last)
    }

    // The eight words as bytes, and the blocks that were absorbed for them.
    pub fn digest(self) -> Digest
        ensures { (m : List ℕ) → HasRead (padded sha256 m) self → digest_of result ≡ hash sha256 m }
    {
        Digest {
            bytes: digest::bytes_of(self.words),
            blocks: self.blocks,
        }
    }
}

// The hash of one string.
pub fn hash_of(s: &[u8]) -> Digest
    ensures { digest_of result ≡ hash sha256 s.now }
{
    Running::new().update(s).finish().digest()
}

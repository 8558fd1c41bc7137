// Four messages of one block each, hashed at once, a lane each. The loop over the lanes has a whole compression for its body, with no call,
// no branch and no copy of an array left in it: of such a loop the compiler makes one turn over vectors of four words.

#![tactic(auto)]

ghost use Rattle.std.specs.Prelude.{◌≡◌, List, ℕ, ◌<◌, length};
ghost use Rattle.standard.specs.Hash.{schedule, compressed};
ghost use Rattle.standard.specs.Sha256.{sha256};
ghost use Rattle.compression.specs.Values.{eight_of};
ghost use Rattle.lanes.specs.Lanes.{lane_of, Hashed};

use compression::rounds::{self, Eight};
use std::array;

// Lane l's words, two to a turn: of one to a turn the compiler makes one copy of 64 bytes, cuts two of the words out of it as one number of
// 64 bits, and then takes two lanes to a vector, which is hardly faster than none.
fn lane_words(words: &[u32; 64], l: usize) -> [u32; 16]
    requires { (l < 4) × (length words.now ≡ 64) }
    ensures { result ≡ lane_of words.now l }
{
    let mut w = [0u32; 16];
    for i in 0..8 {
        let t = 2 * i;
        w[t] = words[16 * l + t];
        w[t + 1] = words[16 * l + t + 1];
    }
    w
}

// The hash value of a message of one block, from the block's words.
fn lane_hashed(words: [u32; 16]) -> Eight
    ensures { (block : List ℕ) → words ≡ schedule sha256 block 16 → eight_of result ≡ compressed sha256 sha256.initial block }
{
    let s = rounds::initial();
    rounds::sums(s, rounds::all_turns(s, rounds::K, words))
}

// Lane l holds the words of a block at 16 * l; its hash value comes back in place l.
pub fn four(words: &[u32; 64]) -> [Eight; 4]
    requires { length words.now ≡ 64 }
    ensures { (l : ℕ) → l < 4 → Hashed words.now result l }
{
    array::from_fn(|l| lane_hashed(lane_words(words, l)))
}

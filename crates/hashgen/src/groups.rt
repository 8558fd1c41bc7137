// Hashgen four turns at a time: the blocks of V, V + 1, V + 2 and V + 3 are hashed in four lanes.
ghost use Rattle.std.specs.Prelude.{◌≡◌, List, ◌++◌, ℕ, ◌+◌, ◌*◌, ◌/◌, ◌%◌, ◌≤◌, ◌<◌, length, take};
ghost use Rattle.standard.specs.Hash.{schedule};
ghost use Rattle.standard.specs.Sha256.{sha256};
ghost use Rattle.lanes.specs.Lanes.{lane_of};
ghost use Rattle.hashgen.specs.Turns.{block_of, turn_block, Ready, Filled, HashesFrom, Onward};

use crate::limbs;
use compression::digest;
use compression::rounds::Eight;

// V's only block as the words of lane l: the limbs', a zero, and 440, the length in bits.
// By place: of what is written through chunks_mut a proof knows the length alone.
fn put_words(words: &mut [u32; 64], l: usize, limbs: [u64; 7])
    requires { l < 4 }
    ensures { take (16 * l + 16) words.new
        ≡ take (16 * l) words.old ++ schedule sha256 (block_of limbs) 16 }
{
    let from = 16 * l;
    for (i, limb) in limbs.iter().enumerate() {
        let at = from + 2 * i;
        words[at] = (limb >> 32) as u32;
        words[at + 1] = (limb & 0xffff_ffff) as u32;
    }
    words[from + 14] = 0;
    words[from + 15] = 440;
}

// The next four turns' blocks, a lane each. The data moves on by four turns.
fn put_blocks(words: &mut [u32; 64], next: &mut [u64; 7])
    ensures lanes { (v : List ℕ) (n : ℕ) → Ready v n next.old → (l : ℕ) → l < 4
        → lane_of words.new l ≡ schedule sha256 (turn_block v (n + l)) 16 }
    ensures moved { (v : List ℕ) (n : ℕ) → Ready v n next.old → Ready v (n + 4) next.new }
{
    // By number: a lane is a place in the array.
    for l in 0..4 {
        put_words(words, l, *next);
        *next = limbs::one_more(*next);
    }
}

// Four turns' hashes in their places, from that of `turn` on. By place, as the words above.
fn put_hashes(out: &mut [u8], turn: usize, s: [Eight; 4])
    requires { 32 * (turn + 4) ≤ length out.old }
    ensures { (v : List ℕ) → HashesFrom v turn s → Filled v turn out.old → Filled v (turn + 4) out.new }
{
    for (i, words) in s.iter().enumerate() {
        digest::put(out, 32 * (turn + i), *words);
    }
}

// Four turns: 128 bytes of the output. In a frame of its own, or every draw would have the lanes' stack.
#[inline(never)]
fn four_turns(next: &mut [u64; 7], out: &mut [u8], turn: usize)
    requires { 32 * (turn + 4) ≤ length out.old }
    ensures { Onward turn (turn + 4) next.old out.old next.new out.new }
{
    let mut words = [0; 64];
    put_blocks(&mut words, next);
    let s = lanes::four(&words);
    put_hashes(out, turn, s);
}

// The first turns of the output, as far as there is room for four. How many they are is handed back.
pub fn filled(next: &mut [u64; 7], out: &mut [u8]) -> usize
    ensures is { Onward 0 result next.old out.old next.new out.new }
    ensures within { (32 * result ≤ length out.old) × (length out.old < 32 * (result + 4)) }
{
    let groups = out.len() / 128;
    // By number: of what is written through chunks_mut a proof knows the length alone.
    for group in 0..groups {
        four_turns(next, out, 4 * group);
    }
    4 * groups
}

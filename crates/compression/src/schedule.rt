// FIPS 180-4 §6.2.2, 1: the message schedule, its latest sixteen words by value. Word t stands in place t % 16.
ghost use Rattle.std.specs.Prelude.{◌≡◌, ◌+◌, ◌*◌, ◌<◌, ◌≤◌, length};
ghost use Rattle.standard.specs.Hash.{word_at, schedule};
ghost use Rattle.standard.specs.Ring.{Extended};
ghost use Rattle.standard.specs.Sha256.{sha256};

use crate::words;
use std::array;

// Word t of a block, its first byte the highest.
fn word_at(block: &[u8], t: usize) -> u32
    requires { (t < 16) × (length block.now ≡ 64) }
    ensures { result ≡ word_at sha256 block.now t }
{
    // Not `from_be_bytes`: with it a compression takes a tenth longer.
    let i = 4 * t;
    u32::from(block[i]) * 16777216
        + u32::from(block[i + 1]) * 65536
        + u32::from(block[i + 2]) * 256
        + u32::from(block[i + 3])
}

// The block's own sixteen words.
pub fn block_words(block: &[u8]) -> [u32; 16]
    requires { length block.now ≡ 64 }
    ensures { result ≡ schedule sha256 block.now 16 }
{
    array::from_fn(|t| word_at(block, t))
}

// Word t from the sixteen before it, in the place of the oldest of them.
fn with_next(words: [u32; 16], t: usize) -> [u32; 16]
    requires { (16 ≤ t) × (t < 64) }
    ensures { Extended sha256 1 t words result }
{
    let mut w = words;
    w[t % 16] = words::lower_sigma_1(w[(t - 2) % 16])
        .wrapping_add(w[(t - 7) % 16])
        .wrapping_add(words::lower_sigma_0(w[(t - 15) % 16]))
        .wrapping_add(w[(t - 16) % 16]);
    w
}

// Two words more.
pub fn with_two(words: [u32; 16], t: usize) -> [u32; 16]
    requires { (16 ≤ t) × (t + 2 ≤ 64) }
    ensures { Extended sha256 2 t words result }
{
    let second = with_next(words, t);
    with_next(second, t + 1)
}

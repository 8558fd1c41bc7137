// The lanes by themselves, for the bench: the blocks of a text, four at a time, each the only block of a message.

#![tactic(auto)]

ghost use Rattle.std.specs.Prelude.{◌≡◌, ◌++◌, ℕ, ◌+◌, ◌*◌, ◌/◌, ◌<◌, length, take};
ghost use Rattle.standard.specs.Hash.{schedule, block_at};
ghost use Rattle.standard.specs.Sha256.{sha256};
ghost use Rattle.lanes.specs.Lanes.{lane_of};
ghost use Rattle.bench_lanes.specs.Words.{first_words};

use compression::schedule;

// A block's words in lane l.
fn put_lane(words: &mut [u32; 64], l: usize, w: [u32; 16])
    requires { l < 4 }
    ensures { take (16 * l + 16) words.new ≡ take (16 * l) words.old ++ w }
{
    words[16 * l..16 * l + 16].copy_from_slice(&w);
}

// The four blocks of a group, a lane each.
fn put_group(words: &mut [u32; 64], group: &[u8])
    requires { length group.now ≡ 256 }
    ensures { (l : ℕ) → l < 4 → lane_of words.new l ≡ schedule sha256 (block_at sha256 group.now l) 16 }
{
    // By number: a lane is a place in the array.
    for l in 0..4 {
        let at = 64 * l;
        put_lane(words, l, schedule::block_words(&group[at..at + 64]));
    }
}

// The first words of the hash values of all blocks but those that make no group, as one.
#[unsafe(no_mangle)]
pub extern "C" fn purangsa_lanes(text: &[u8]) -> u32
    ensures { result ≡ first_words text.now (4 * (length text.now / 256)) }
{
    let mut words = [0; 64];
    let mut sum = 0;
    for group in text.chunks_exact(256) {
        put_group(&mut words, group);
        let r = lanes::four(&words);
        sum = sum ^ r[0].a ^ r[1].a ^ r[2].a ^ r[3].a;
    }
    sum
}

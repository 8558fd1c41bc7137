// Hashgen turn by turn.
ghost use Rattle.std.specs.Prelude.{◌≡◌, ◌+◌, ◌*◌, ◌≤◌, ◌<◌, length};
ghost use Rattle.standard.specs.Hash.{compressed, digest};
ghost use Rattle.standard.specs.Sha256.{sha256};
ghost use Rattle.hashgen.specs.Turns.{block_of, Onward};

use crate::limbs;
use compression::{digest, rounds};
use drbg_shared::output;

// V's only block.
fn only_block(limbs: [u64; 7]) -> [u8; 64]
    ensures { result ≡ block_of limbs }
{
    let mut block = [0; 64];
    block[62] = 1;
    block[63] = 184;
    sums::put_limbs(&mut block, limbs);
    block
}

// The hash of a padded message that is one block.
fn hash_of_block(block: [u8; 64]) -> [u8; 32]
    ensures { result ≡ digest sha256 (compressed sha256 sha256.initial block) }
{
    digest::bytes_of(rounds::compress(rounds::initial(), &block))
}

// The turns from `first` on, until the output is full; the last one's hash may be cut. How many turns there are from the start is handed
// back.
pub fn filled(next: &mut [u64; 7], out: &mut [u8], first: usize) -> usize
    requires { 32 * first ≤ length out.old }
    ensures is { Onward first result next.old out.old next.new out.new }
    ensures whole { (length out.old ≤ 32 * result) × (32 * result < length out.old + 32) }
{
    let turns = out.len().div_ceil(32);
    // By number: of what is written through chunks_mut a proof knows the length alone.
    for turn in first..turns {
        let block = only_block(*next);
        *next = limbs::one_more(*next);
        output::store(out, 32 * turn, hash_of_block(block));
    }
    turns
}

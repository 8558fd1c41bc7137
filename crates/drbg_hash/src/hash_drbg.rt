// SP 800-90A §10.1.1: Hash_DRBG over SHA-256. V and C are led on in their fields: a struct of both would be a copy of each.
ghost use Rattle.std.specs.Prelude.{◌≡◌, ◌∷◌, ◌++◌, ◌≤◌, length};
ghost use Rattle.standard.specs.Hash.{hash};
ghost use Rattle.standard.specs.HashDrbg.{seeded, refreshed};
ghost use Rattle.standard.specs.Sha256.{sha256};
ghost use Rattle.sha256.specs.Seed.{material, Short};
ghost use Rattle.drbg_shared.specs.Costs.{costing};
ghost use Rattle.drbg_hash.specs.Seeds.{seed_for, constant_of, state_with};

use crate::hash_df;
use compression::{digest, rounds};
use drbg_shared::joined;
use sha256::strings::Strings;

// §10.1.1.2 and 10.1.1.3, step 4: C from V, in its place.
fn put_constant(c: &mut [u8; 55], v: &[u8; 55]) -> u64
    ensures is { costing result c.new ≡ constant_of v.now }
    ensures count { result ≡ 4 }
{
    let zero = [0u8];
    hash_df::derive(c, &zero, v, &Strings::one(&[]))
}

// §10.1.1.2 and 10.1.1.3, steps 2 to 6: V and C in their places. The seed material is a mark and the old V, or nothing of both, then the
// caller's strings.
pub fn seed_from(
    v: &mut [u8; 55],
    c: &mut [u8; 55],
    mark: &[u8],
    old: &[u8],
    strings: &Strings<'_>,
) -> u64
    requires mark_len_bound { (length mark.now ≤ 64) × (length old.now ≤ 64) }
    requires short { Short strings.now }
    ensures { seed_for result v.new c.new ≡ seeded sha256 (mark.now ++ (old.now ++ material strings.now)) }
{
    let value = hash_df::derive(v, mark, old, strings);
    let constant = put_constant(c, v);
    value + constant
}

// §10.1.1.4, step 2: V in its place.
pub fn refresh(v: &mut [u8; 55], additional: &[u8]) -> u64
    requires { length additional.now ≤ 1024 }
    ensures { costing result v.new ≡ refreshed sha256 additional.now v.old }
{
    if additional.is_empty() {
        return 0;
    }
    let w = joined::hash_joined(&[2], v, &[], &Strings::one(additional));
    let grown = sums::total(*v, w.bytes, [0u8; 55], 0);
    *v = grown;
    w.blocks
}

// A byte before V.
fn led(byte: u8, v: [u8; 55]) -> [u8; 56]
    ensures { result ≡ byte ∷ v }
{
    let mut s = [byte; 56];
    copies::copy(&mut s, 1, &v);
    s
}

// The hash of 56 bytes: a bit 1 and zeros fill their block, and 448, the length in bits, ends another.
fn hash_of_led(lead: [u8; 56]) -> [u8; 32]
    ensures { costing 2 result ≡ hash sha256 lead }
{
    let mut block = [0u8; 64];
    block[56] = 128;
    copies::copy(&mut block, 0, &lead);
    let once = rounds::compress(rounds::initial(), &block);
    block = [0u8; 64];
    block[62] = 1;
    block[63] = 192;
    digest::bytes_of(rounds::compress(once, &block))
}

// §10.1.1.4, steps 4 and 5: V after a draw, in its place.
pub fn step(v: &mut [u8; 55], c: &[u8; 55], counter: u64) -> u64
    ensures { costing result v.new ≡ state_with v.old c.now counter }
{
    let h = hash_of_led(led(3, *v));
    let next = sums::total(*v, h, *c, counter);
    *v = next;
    2
}

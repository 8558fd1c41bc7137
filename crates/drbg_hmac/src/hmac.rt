// FIPS 198-1: HMAC under a key of 32 bytes.
ghost use Rattle.std.specs.Prelude.{◌≡◌, ◌∷◌, ◌++◌};
ghost use Rattle.standard.specs.Hash.{padding, hash};
ghost use Rattle.standard.specs.Hmac.{xored, filled, hmac};
ghost use Rattle.standard.specs.Sha256.{sha256};
ghost use Rattle.sha256.specs.Seed.{material, Short};
ghost use Rattle.sha256.specs.Values.{digest_of};
ghost use Rattle.drbg_shared.specs.Costs.{costing};
ghost use Rattle.drbg_hmac.specs.Keys.{ready};

use compression::{digest, rounds};
use drbg_shared::joined;
use sha256::running::Digest;
use sha256::strings::Strings;

// Table 1, steps 4 and 7: the key, zeros behind it, each byte xored with the pad's.
fn pad_block(key: &[u8; 32], pad: u8) -> [u8; 64]
    ensures { result ≡ xored pad (filled sha256 key.now) }
{
    // By index: after a zip of iter_mut nothing is known of the bytes.
    let mut block = [pad; 64];
    for (i, b) in key.iter().enumerate() {
        block[i] = b ^ pad;
    }
    block
}

// What follows a pad block in the hash of 96 bytes: 32 bytes, a bit 1, zeros, and 768, the length in bits.
fn last_block(v: &[u8; 32]) -> [u8; 64]
    ensures { result ≡ v.now ++ padding sha256 96 }
{
    let mut block = [0u8; 64];
    block[32] = 128;
    block[62] = 3;
    copies::copy(&mut block, 0, v);
    block
}

// The hash of the key's pad block and 32 bytes, with no scratch between.
fn hash_behind(key: &[u8; 32], pad: u8, v: &[u8; 32]) -> [u8; 32]
    ensures { costing 2 result ≡ hash sha256 (xored pad (filled sha256 key.now) ++ v.now) }
{
    let first = pad_block(key, pad);
    let last = last_block(v);
    let once = rounds::compress(rounds::initial(), &first);
    digest::bytes_of(rounds::compress(once, &last))
}

// HMAC (key, v): four blocks.
pub fn hmac_of(key: &[u8; 32], v: &[u8; 32]) -> [u8; 32]
    ensures { costing 4 result ≡ hmac sha256 (ready key.now) v.now }
{
    let inner = hash_behind(key, 0x36, v);
    hash_behind(key, 0x5c, &inner)
}

// HMAC (key, v ‖ separator ‖ strings), the strings read through as one.
pub fn hmac_of_all(key: &[u8; 32], v: &[u8; 32], separator: u8, strings: &Strings<'_>) -> Digest
    requires { Short strings.now }
    ensures { digest_of result ≡ hmac sha256 (ready key.now) (v.now ++ (separator ∷ material strings.now)) }
{
    let inner_pad = pad_block(key, 0x36);
    let inner = joined::hash_joined(&inner_pad, v, &[separator], strings);
    Digest {
        bytes: hash_behind(key, 0x5c, &inner.bytes),
        blocks: inner.blocks + 2,
    }
}

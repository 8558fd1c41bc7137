// Both mechanisms behind one door: a generator's two fields, as they stand in a slot, are lent and led on in their places. Each function
// hands back the blocks that it has consumed.
ghost use Rattle.std.specs.Prelude.{◌≡◌, ℕ, ◌+◌, ◌≤◌, length};
ghost use Rattle.standard.specs.Functions.{opening, reseeding, draw, fresh_draw};
ghost use Rattle.standard.specs.Sha256.{sha256};
ghost use Rattle.drbg_shared.specs.Generator.{Fields, state_of, served, filled, holding, led_on};
ghost use Rattle.drbg.specs.Mechanism.{mechanism_of};

use crate::mechanism::Mechanism;
use drbg_hash::generator::HashDrbg;
use drbg_hmac::generator::HmacDrbg;
use drbg_shared::generator::Drbg;

// The doors answer for every number, and say so in each contract: a trait's clauses speak of one mechanism.

// SP 800-90A §9.1, step 9.
pub fn opened<'a>(
    mechanism: u8,
    first: &mut [u8; 55],
    second: &mut [u8; 55],
    entropy: &'a [u8],
    nonce: &'a [u8],
    personalization: &'a [u8],
) -> u64
    requires { (length entropy.now ≤ 1024) × (length nonce.now ≤ 64) × (length personalization.now ≤ 512) }
    ensures is { led_on first.new second.new 1 result
        ≡ served (opening sha256 (mechanism_of mechanism) entropy.now nonce.now personalization.now) }
{
    match Mechanism::from(mechanism) {
        Mechanism::Hmac => HmacDrbg::opened(first, second, entropy, nonce, personalization),
        Mechanism::Hash => HashDrbg::opened(first, second, entropy, nonce, personalization),
    }
}

// §9.2, step 6.
pub fn reseeded<'a>(
    mechanism: u8,
    first: &mut [u8; 55],
    second: &mut [u8; 55],
    entropy: &'a [u8],
    additional: &'a [u8],
) -> u64
    requires fields { Fields first.old second.old }
    requires entropy_len_bound { (length entropy.now ≤ 1024) × (length additional.now ≤ 1024) }
    ensures is { (counter : ℕ) → led_on first.new second.new 1 result
        ≡ served (reseeding sha256 (mechanism_of mechanism)
        (state_of (mechanism_of mechanism) (holding first.old second.old counter))
        entropy.now additional.now) }
    ensures few { result ≤ 8288 }
    ensures sized { Fields first.new second.new }
{
    match Mechanism::from(mechanism) {
        Mechanism::Hmac => HmacDrbg::reseeded(first, second, entropy, additional),
        Mechanism::Hash => HashDrbg::reseeded(first, second, entropy, additional),
    }
}

// §9.3.1, step 8.
pub fn drawn(
    mechanism: u8,
    first: &mut [u8; 55],
    second: &mut [u8; 55],
    counter: u64,
    additional: &[u8],
    out: &mut [u8],
) -> u64
    requires fields { Fields first.old second.old }
    requires out_len_bound { (length out.old ≤ 65536) × (length additional.now ≤ 1024) }
    ensures is { record { served = led_on first.new second.new (counter + 1) result; output = out.new }
        ≡ filled (draw sha256 (mechanism_of mechanism)
        (state_of (mechanism_of mechanism) (holding first.old second.old counter))
        (length out.old) additional.now) }
    ensures few { result ≤ 8288 }
{
    match Mechanism::from(mechanism) {
        Mechanism::Hmac => HmacDrbg::drawn(first, second, counter, additional, out),
        Mechanism::Hash => HashDrbg::drawn(first, second, counter, additional, out),
    }
}

// §9.3.1, steps 7 and 8: a reseed leaves the counter at 1.
pub fn fresh_drawn<'a>(
    mechanism: u8,
    first: &mut [u8; 55],
    second: &mut [u8; 55],
    entropy: &'a [u8],
    additional: &'a [u8],
    out: &mut [u8],
) -> u64
    requires fields { Fields first.old second.old }
    requires out_len_bound { (length out.old ≤ 65536) × (length entropy.now ≤ 1024) × (length additional.now ≤ 1024) }
    ensures is { (counter : ℕ) →
        record { served = led_on first.new second.new 2 result; output = out.new }
        ≡ filled (fresh_draw sha256 (mechanism_of mechanism)
        (state_of (mechanism_of mechanism) (holding first.old second.old counter))
        (length out.old) entropy.now additional.now) }
{
    let seeded = reseeded(mechanism, first, second, entropy, additional);
    let last = drawn(mechanism, first, second, 1, &[], out);
    seeded + last
}

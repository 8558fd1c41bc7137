// HMAC_DRBG on a generator as it stands in a slot: Key and V are the first 32 bytes of its fields.
ghost use Rattle.std.specs.Prelude.{◌≡◌, ◌++◌, length, take, replicate};
ghost use Rattle.standard.specs.Functions.{HMAC_DRBG};

use crate::hmac_drbg::Keyed;
use drbg_shared::generator::Drbg;
use sha256::strings::Strings;

// 32 bytes in a field, zeros behind them.
fn put(f: &mut [u8; 55], s: &[u8; 32])
    ensures is { f.new ≡ s.now ++ replicate 23 0 }
    ensures sized { length f.new ≡ 55 }
{
    *f = [0u8; 55];
    copies::copy(f, 0, s);
}

// Key and V from their fields.
fn taken(first: &[u8; 55], second: &[u8; 55]) -> Keyed
    ensures key { result.key ≡ take 32 first.now }
    ensures v { result.v ≡ take 32 second.now }
{
    Keyed {
        key: copies::part(first, 0),
        v: copies::part(second, 0),
    }
}

pub struct HmacDrbg;

impl Drbg for HmacDrbg {
    ghost mechanism = { HMAC_DRBG };

    // §10.1.2.3: Key starts as zeros, V as 32 bytes 01.
    fn opened<'a>(
        first: &mut [u8; 55],
        second: &mut [u8; 55],
        entropy: &'a [u8],
        nonce: &'a [u8],
        personalization: &'a [u8],
    ) -> u64 {
        let mut keyed = Keyed {
            key: [0u8; 32],
            v: [1u8; 32],
        };
        let seed = Strings {
            first: entropy,
            second: nonce,
            third: personalization,
        };
        let blocks = keyed.update(&seed);
        put(first, &keyed.key);
        put(second, &keyed.v);
        blocks
    }

    // §10.1.2.4
    fn reseeded<'a>(
        first: &mut [u8; 55],
        second: &mut [u8; 55],
        entropy: &'a [u8],
        additional: &'a [u8],
    ) -> u64 {
        let mut keyed = taken(first, second);
        let seed = Strings {
            first: entropy,
            second: additional,
            third: &[],
        };
        let blocks = keyed.update(&seed);
        put(first, &keyed.key);
        put(second, &keyed.v);
        blocks
    }

    // §10.1.2.5
    fn drawn(
        first: &mut [u8; 55],
        second: &mut [u8; 55],
        _counter: u64,
        additional: &[u8],
        out: &mut [u8],
    ) -> u64 {
        let mut keyed = taken(first, second);
        let begun = keyed.refresh(additional);
        let output = keyed.output(out);
        let last = keyed.update(&Strings::one(additional));
        put(first, &keyed.key);
        put(second, &keyed.v);
        begun + output + last
    }
}

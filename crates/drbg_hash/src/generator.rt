// Hash_DRBG on a generator as it stands in a slot: its two fields are V and C.
ghost use Rattle.standard.specs.Functions.{Hash_DRBG};

use crate::hash_drbg;
use drbg_shared::generator::Drbg;
use sha256::strings::Strings;

pub struct HashDrbg;

impl Drbg for HashDrbg {
    ghost mechanism = { Hash_DRBG };

    // §10.1.1.2
    fn opened<'a>(
        first: &mut [u8; 55],
        second: &mut [u8; 55],
        entropy: &'a [u8],
        nonce: &'a [u8],
        personalization: &'a [u8],
    ) -> u64 {
        let seed = Strings {
            first: entropy,
            second: nonce,
            third: personalization,
        };
        hash_drbg::seed_from(first, second, &[], &[], &seed)
    }

    // §10.1.1.3: 01 and V are read through before the entropy.
    fn reseeded<'a>(
        first: &mut [u8; 55],
        second: &mut [u8; 55],
        entropy: &'a [u8],
        additional: &'a [u8],
    ) -> u64 {
        let old = *first;
        let seed = Strings {
            first: entropy,
            second: additional,
            third: &[],
        };
        hash_drbg::seed_from(first, second, &[1], &old, &seed)
    }

    // §10.1.1.4: C stays as it is.
    fn drawn(
        first: &mut [u8; 55],
        second: &mut [u8; 55],
        counter: u64,
        additional: &[u8],
        out: &mut [u8],
    ) -> u64 {
        let begun = hash_drbg::refresh(first, additional);
        // V, and the bit 1 that its padding begins with
        let mut data = sums::limbs_of(*first, 128);
        let output = hashgen::filled(&mut data, out);
        let last = hash_drbg::step(first, second, counter);
        begun + output + last
    }
}

// SP 800-90A §11.3, known-answer tests: the calls that ship, on NIST's published cases and on one that is refused.

#![tactic(auto)]

pub mod cases;
pub mod published;

ghost use Rattle.std.specs.Prelude.{◌≡◌};
ghost use Rattle.self_test.specs.SelfTest.{first_differing};

use crate::published::{HASH_FRESH, HASH_RESEEDED, HMAC_FRESH, HMAC_RESEEDED};

// 0, or the number of the first case that differs: 1 is the first. A number, as C takes it.
pub fn self_test() -> u64
    ensures { result ≡ first_differing }
{
    let held = [
        HMAC_RESEEDED.holds(1),
        HASH_RESEEDED.holds(2),
        HMAC_FRESH.holds(1),
        HASH_FRESH.holds(2),
        cases::refused(
            2,
            HASH_RESEEDED.entropy1,
            HASH_RESEEDED.nonce,
            HASH_RESEEDED.personalization,
            HASH_RESEEDED.additional2,
        ),
    ];
    match held.iter().position(|held| !held) {
        Some(n) => n as u64 + 1,
        None => 0,
    }
}

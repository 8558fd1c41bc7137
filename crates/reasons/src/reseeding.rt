// Reseed: 1, 2, 7, 8; here from 7 on, once the table is sound and the handle names a generator.
ghost use Rattle.std.specs.Prelude.{◌≡◌, true};
ghost use Rattle.reasons.specs.Numbers.{refused_by};
ghost use Rattle.reasons.specs.Reasons.{first_of};
ghost use Rattle.reasons.specs.Checks.{reseed_reasons};

use crate::Reason::{AdditionalInputTooLong, EntropyOutOfRange};
use crate::{Reason, outside, refuse_if};

// `own` is the generator's own strength.
#[tactic(auto, unfolding(crate::specs::Checks::reseed_reasons, crate::specs::Reasons::first_of))]
pub fn reseed_reason(own: u16, entropy: usize, additional: usize) -> Result<(), Reason>
    ensures { refused_by result ≡ first_of (reseed_reasons true true own entropy additional) }
{
    let least = u64::from(own) / 8;
    refuse_if(1024 < additional, AdditionalInputTooLong)?;
    refuse_if(outside(least, entropy as u64, 1024), EntropyOutOfRange)
}

// Fresh draw: 1, 2, 10, 4, 7, 11, 8; here from 10 on, once the table is sound and the handle names a generator.
ghost use Rattle.std.specs.Prelude.{◌≡◌, true};
ghost use Rattle.reasons.specs.Numbers.{refused_by};
ghost use Rattle.reasons.specs.Reasons.{first_of};
ghost use Rattle.reasons.specs.Checks.{fresh_draw_reasons};

use crate::Reason::{
    AdditionalInputTooLong, EntropyOutOfRange, NoFreshRight, RequestTooLong, StrengthTooHigh,
};
use crate::{Reason, outside, refuse_if};

// `own` is the generator's own strength, and `fresh` its right to fresh draws, as the slot's byte has it.
#[tactic(auto, unfolding(crate::specs::Checks::fresh_draw_reasons, crate::specs::Reasons::first_of))]
pub fn fresh_draw_reason(
    own: u16,
    fresh: u8,
    strength: u64,
    request: usize,
    entropy: usize,
    additional: usize,
) -> Result<(), Reason>
    ensures { refused_by result ≡ first_of (fresh_draw_reasons true true own fresh strength request entropy additional) }
{
    let least = u64::from(own) / 8;
    refuse_if(65536 < request, RequestTooLong)?;
    refuse_if(u64::from(own) < strength, StrengthTooHigh)?;
    refuse_if(1024 < additional, AdditionalInputTooLong)?;
    refuse_if(fresh == 0, NoFreshRight)?;
    refuse_if(outside(least, entropy as u64, 1024), EntropyOutOfRange)
}

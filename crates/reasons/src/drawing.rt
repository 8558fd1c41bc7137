// Draw: 1, 2, 10, 4, 7, 12; here from 10 on, once the table is sound and the handle names a generator.
ghost use Rattle.std.specs.Prelude.{◌≡◌, true};
ghost use Rattle.reasons.specs.Numbers.{refused_by};
ghost use Rattle.reasons.specs.Reasons.{first_of};
ghost use Rattle.reasons.specs.Checks.{draw_reasons};

use crate::Reason::{AdditionalInputTooLong, RequestTooLong, ReseedDue, StrengthTooHigh};
use crate::{Reason, refuse_if};

// `own` is the generator's own strength.
#[tactic(auto, unfolding(crate::specs::Checks::draw_reasons, crate::specs::Reasons::first_of))]
pub fn draw_reason(
    own: u16,
    interval: u64,
    counter: u64,
    strength: u64,
    request: usize,
    additional: usize,
) -> Result<(), Reason>
    ensures { refused_by result ≡ first_of (draw_reasons true true own interval counter strength request additional) }
{
    refuse_if(65536 < request, RequestTooLong)?;
    refuse_if(u64::from(own) < strength, StrengthTooHigh)?;
    refuse_if(1024 < additional, AdditionalInputTooLong)?;
    refuse_if(interval < counter, ReseedDue)
}

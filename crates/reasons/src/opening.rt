// Open: 1, 3, 4, 5, 6, 8, 9, 13, 14; here from 3 on, once the table is sound.
ghost use Rattle.std.specs.Prelude.{◌≡◌, true, unwrap_or};
ghost use Rattle.reasons.specs.Numbers.{refused_by};
ghost use Rattle.reasons.specs.Reasons.{first_of};
ghost use Rattle.reasons.specs.Checks.{open_reasons};

use crate::Reason::{
    EntropyOutOfRange, IntervalOutOfRange, NoFreeSlot, NonceOutOfRange, PersonalizationTooLong,
    SerialsUsedUp, StrengthTooHigh, UnknownMechanism,
};
use crate::{Reason, outside, refuse_if, rounded};

// Any number may be asked for as the mechanism.
// `slot` is the lowest free one, if there is any (16 stands for none), and `last` the last serial.
#[tactic(auto, unfolding(crate::specs::Checks::open_reasons, crate::specs::Reasons::first_of))]
pub fn open_reason(
    mechanism: u64,
    strength: u64,
    interval: u64,
    entropy: usize,
    nonce: usize,
    personalization: usize,
    slot: Option<usize>,
    last: u32,
) -> Result<(), Reason>
    ensures { refused_by result
        ≡ first_of (open_reasons true mechanism strength interval entropy nonce personalization (unwrap_or slot 16) last) }
{
    let own = u64::from(rounded(strength));
    refuse_if((mechanism != 1) & (mechanism != 2), UnknownMechanism)?;
    refuse_if(256 < strength, StrengthTooHigh)?;
    refuse_if(outside(1, interval, 1 << 48), IntervalOutOfRange)?;
    refuse_if(512 < personalization, PersonalizationTooLong)?;
    refuse_if(outside(own / 8, entropy as u64, 1024), EntropyOutOfRange)?;
    refuse_if(outside(own / 16, nonce as u64, 64), NonceOutOfRange)?;
    refuse_if(slot.unwrap_or(16) == 16, NoFreeSlot)?;
    refuse_if(last == u32::MAX, SerialsUsedUp)
}

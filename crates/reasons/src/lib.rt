// Document 01, 'Order of checks': the first reason of each call, in its order, on plain numbers.
// A function for each call, since each has reasons and an order of its own. Reasons 1 and 2 are the calls' own: what is asked here is
// asked of a sound table, and of a handle that names a generator.

#![tactic(auto)]

mod drawing;
mod fresh_drawing;
mod opening;
mod reseeding;

ghost use Rattle.std.specs.Prelude.{◌≡◌, Ok, Err, if◌then◌else◌};
ghost use Rattle.reasons.specs.Checks.{outside, rounded};

pub use crate::drawing::draw_reason;
pub use crate::fresh_drawing::fresh_draw_reason;
pub use crate::opening::open_reason;
pub use crate::reseeding::reseed_reason;

// Document 01's reasons to refuse a call, by their numbers.
#[derive(Clone, Copy, Debug, PartialEq, Eq)]
pub enum Reason {
    UnsoundTable = 1,
    NoSuchGenerator,
    UnknownMechanism,
    StrengthTooHigh,
    IntervalOutOfRange,
    PersonalizationTooLong,
    AdditionalInputTooLong,
    EntropyOutOfRange,
    NonceOutOfRange,
    RequestTooLong,
    NoFreshRight,
    ReseedDue,
    NoFreeSlot,
    SerialsUsedUp,
}

impl From<Reason> for u64 {
    ghost use Rattle.reasons.specs.Numbers.{number_of};

    ghost from_gives = { λ reason number. number ≡ number_of reason };

    fn from(reason: Reason) -> u64 {
        reason as u64
    }
}

fn refuse_if(holds: bool, reason: Reason) -> Result<(), Reason>
    ensures { result ≡ (if holds then Err reason else Ok tt) }
{
    if holds { Err(reason) } else { Ok(()) }
}

fn outside(least: u64, number: u64, most: u64) -> bool
    ensures { result ≡ outside least number most }
{
    !(least..=most).contains(&number)
}

// The strength of an opening, rounded up.
#[tactic(auto, unfolding(crate::specs::Checks::rounded))]
pub fn rounded(strength: u64) -> u16
    ensures { result ≡ rounded strength }
{
    match strength {
        0..=112 => 112,
        113..=128 => 128,
        129..=192 => 192,
        _ => 256,
    }
}

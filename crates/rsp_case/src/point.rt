// How far the reading of a case has come, and what a line does to it.
ghost use Rattle.std.specs.Prelude.{ℕ, ◌≡◌, true, ◌+◌, ◌<◌, ◌≤◌};
ghost use Rattle.rsp_case.specs.Points.{follows, headed, counted, passed, taken, given};
ghost use Rattle.rsp_case.specs.Values.{next_of, Returns};
ghost use Rattle.rsp_case.specs.Kept.{Placed};

use crate::heads;
use crate::heads::Heads;
use crate::names::{
    ADDITIONAL_INPUT, ADDITIONAL_INPUT_RESEED, COUNT, ENTROPY_INPUT, ENTROPY_INPUT_PR,
    ENTROPY_INPUT_RESEED, NO_NAME, NONCE, PERSONALIZATION_STRING, RETURNED_BITS,
};

// `last` is what stood last in the case at hand, COUNT or a field's name, 0 between cases; `number` is the case's COUNT.
#[derive(Clone, Copy, Default)]
pub struct Point {
    pub heads: Heads,
    // A number, and not a Name: headed, counted and given answer for every number.
    pub last: u64,
    pub number: u64,
}

// It goes on, with the line's field kept or not; the case is whole, the line's field being what was returned, of so many bytes; the case
// is passed over; or the line can't be read.
#[derive(Clone, Copy)]
pub enum Next {
    Goes(Point),
    Keeps(Point),
    Whole(Point, usize),
    PassedOver(Point),
    Unread,
}

// The published order. Numbers here and in what `given` hands them to, as there.
#[tactic(auto, unfolding(crate::specs::Points::follows))]
fn follows(last: u64, name: u64) -> bool
    ensures is { result ≡ follows last name }
    ensures byte { result ≡ true → name < 256 }
{
    matches!(
        (last, name),
        (COUNT, ENTROPY_INPUT)
            | (ENTROPY_INPUT, NONCE)
            | (NONCE, PERSONALIZATION_STRING)
            | (
                PERSONALIZATION_STRING
                    | ADDITIONAL_INPUT
                    | ENTROPY_INPUT_PR
                    | ADDITIONAL_INPUT_RESEED,
                ADDITIONAL_INPUT | ENTROPY_INPUT_RESEED
            )
            | (ENTROPY_INPUT_RESEED, ADDITIONAL_INPUT_RESEED)
            | (ADDITIONAL_INPUT, ENTROPY_INPUT_PR)
            | (ADDITIONAL_INPUT | ENTROPY_INPUT_PR, RETURNED_BITS)
    )
}

impl Point {
    // A heading, which stands between cases.
    #[tactic(auto, unfolding(crate::specs::Points::headed))]
    pub fn headed(self, heads: Heads) -> Next
        ensures { next_of result ≡ headed self heads }
    {
        match self.last {
            NO_NAME => Next::Goes(Point { heads, ..self }),
            _ => Next::Unread,
        }
    }

    // COUNT: a case begins.
    #[tactic(auto, unfolding(crate::specs::Points::counted))]
    pub fn counted(self, number: u64) -> Next
        ensures { next_of result ≡ counted self number }
    {
        if self.last != NO_NAME || !self.heads.known {
            return Next::Unread;
        }
        Next::Goes(Point {
            last: COUNT,
            number,
            ..self
        })
    }

    // A field under another hash.
    #[tactic(auto, unfolding(crate::specs::Points::passed))]
    fn passed(self, name: u64) -> Next
        ensures is { next_of result ≡ passed self name }
        ensures returns { (n : ℕ) → Returns n result }
    {
        match name {
            RETURNED_BITS => Next::PassedOver(Point {
                last: NO_NAME,
                ..self
            }),
            _ => Next::Goes(self),
        }
    }

    // A field of n bytes under our hash, which stands where it may.
    #[tactic(auto, unfolding(crate::specs::Points::taken))]
    fn taken(self, name: u64, n: usize) -> Next
        ensures is { next_of result ≡ taken self name }
        ensures placed { (size : ℕ) → size ≤ 65536 → name < 256 → Placed size name (next_of result) }
        ensures returns { Returns n result }
    {
        match name {
            RETURNED_BITS => Next::Whole(
                Point {
                    last: NO_NAME,
                    ..self
                },
                n,
            ),
            _ => Next::Keeps(Point { last: name, ..self }),
        }
    }

    // A field of n bytes, where so many are held of the case so far.
    // A number, and not a Name: given answers for every number.
    #[tactic(auto, unfolding(crate::specs::Points::given, crate::specs::Points::passed))]
    pub fn given(self, held: usize, name: u64, n: usize) -> Next
        requires { (held ≤ 65536) × (n < 2048) }
        ensures is { next_of result ≡ given self held name n }
        ensures placed { Placed (held + 3 + n) name (next_of result) }
        ensures returns { Returns n result }
    {
        if self.last == NO_NAME {
            return Next::Unread;
        }
        if !self.heads.ours {
            return self.passed(name);
        }
        let length = self.heads.length_for(name);
        if follows(self.last, name) && heads::fits(length, n) && held + 3 + n <= 65536 {
            return self.taken(name, n);
        }
        Next::Unread
    }
}

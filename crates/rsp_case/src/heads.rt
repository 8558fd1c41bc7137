// What the headings have said.
ghost use Rattle.std.specs.Prelude.{◌≡◌, ◌<◌};
ghost use Rattle.rsp_case.specs.Heads.{no_heads, heads_under, with_fresh, with_length, heads_told, length_for, fits};

use crate::names::{
    ADDITIONAL_INPUT, ADDITIONAL_INPUT_RESEED, ENTROPY_INPUT, ENTROPY_INPUT_PR,
    ENTROPY_INPUT_RESEED, NONCE, PERSONALIZATION_STRING, RETURNED_BITS,
};
use rsp_line::line::Heading;

// `known` where a hash was named, `ours` where it is SHA-256, `fresh` where prediction resistance is True; the length of each field in
// bits, where one was said.
#[derive(Clone, Copy, Default)]
pub struct Heads {
    // Two flags, and not an Option: headed, counted and given answer for all four of their cases.
    pub known: bool,
    pub ours: bool,
    pub fresh: bool,
    pub entropy: Option<u64>,
    pub nonce: Option<u64>,
    pub personalization: Option<u64>,
    pub additional: Option<u64>,
    pub returned: Option<u64>,
}

impl Heads {
    pub fn none() -> Heads
        ensures { result ≡ no_heads }
    {
        Heads::default()
    }

    pub fn under(ours: bool) -> Heads
        ensures { result ≡ heads_under ours }
    {
        Heads {
            known: true,
            ours,
            ..Heads::none()
        }
    }

    pub fn with_fresh(self, fresh: bool) -> Heads
        ensures { result ≡ with_fresh self fresh }
    {
        Heads { fresh, ..self }
    }

    // A number, and not a Name: it answers for every number.
    pub fn with_length(mut self, name: u64, bits: u64) -> Heads
        ensures { result ≡ with_length self name bits }
    {
        let length = Some(bits);
        match name {
            ENTROPY_INPUT => self.entropy = length,
            NONCE => self.nonce = length,
            PERSONALIZATION_STRING => self.personalization = length,
            ADDITIONAL_INPUT => self.additional = length,
            RETURNED_BITS => self.returned = length,
            _ => {}
        }
        self
    }

    // With one heading more.
    pub fn told(self, heading: Heading) -> Heads
        ensures { result ≡ heads_told self heading }
    {
        match heading {
            Heading::Hash(ours) => Heads::under(ours),
            Heading::Resists(fresh) => self.with_fresh(fresh),
            Heading::Bits(name, bits) => self.with_length(u64::from(name.number()), bits),
        }
    }

    // What a field's length must be: one heading speaks of all entropy, another of all additional input.
    // A number, and not a Name: it answers for every number.
    pub fn length_for(self, name: u64) -> Option<u64>
        ensures { result ≡ length_for self name }
    {
        match name {
            ENTROPY_INPUT | ENTROPY_INPUT_RESEED | ENTROPY_INPUT_PR => self.entropy,
            NONCE => self.nonce,
            PERSONALIZATION_STRING => self.personalization,
            ADDITIONAL_INPUT | ADDITIONAL_INPUT_RESEED => self.additional,
            RETURNED_BITS => self.returned,
            _ => None,
        }
    }
}

// Whether a value of n bytes has the length.
pub fn fits(length: Option<u64>, n: usize) -> bool
    requires { n < 2048 }
    ensures { result ≡ fits length n }
{
    match length {
        None => true,
        Some(bits) => 8 * n as u64 == bits,
    }
}

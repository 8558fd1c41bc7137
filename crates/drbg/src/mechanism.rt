// The mechanism of a generator, from its number.
ghost use Rattle.std.specs.Prelude.{◌≡◌};
ghost use Rattle.drbg.specs.Mechanism.{mechanism_of, standard_of};

#[derive(Clone, Copy, PartialEq, Eq, Debug)]
pub enum Mechanism {
    Hmac,
    Hash,
}

impl From<u8> for Mechanism {
    ghost from_gives = { λ number m. standard_of m ≡ mechanism_of number };

    fn from(number: u8) -> Mechanism {
        match number {
            1 => Mechanism::Hmac,
            _ => Mechanism::Hash,
        }
    }
}

// The names of fields and of headings.
ghost use Rattle.std.specs.Prelude.{◌≡◌};
ghost use Rattle.rsp_line.specs.Names.{number_of, name_number, name_of, length_of};

use same::same;

// Each with the number that stands for it in the definitions.
#[derive(Clone, Copy, PartialEq, Eq)]
pub enum Name {
    EntropyInput = 1,
    Nonce = 2,
    PersonalizationString = 3,
    AdditionalInput = 4,
    ReturnedBits = 5,
    EntropyInputReseed = 6,
    AdditionalInputReseed = 7,
    EntropyInputPR = 8,
    Count = 9,
}

impl Name {
    pub fn number(self) -> u8
        ensures { result ≡ number_of self }
    {
        self as u8
    }
}

// A field's name, with the space behind it. By tests: a match on byte strings is a case for each character.
#[tactic(auto, unfolding(crate::specs::Names::name_of, text::specs::Ascii::ascii))]
pub fn name_of(s: &[u8]) -> Option<Name>
    ensures { name_number result ≡ name_of s.now }
{
    if same(b"EntropyInput ", s) {
        Some(Name::EntropyInput)
    } else if same(b"Nonce ", s) {
        Some(Name::Nonce)
    } else if same(b"PersonalizationString ", s) {
        Some(Name::PersonalizationString)
    } else if same(b"AdditionalInput ", s) {
        Some(Name::AdditionalInput)
    } else if same(b"ReturnedBits ", s) {
        Some(Name::ReturnedBits)
    } else if same(b"EntropyInputReseed ", s) {
        Some(Name::EntropyInputReseed)
    } else if same(b"AdditionalInputReseed ", s) {
        Some(Name::AdditionalInputReseed)
    } else if same(b"EntropyInputPR ", s) {
        Some(Name::EntropyInputPR)
    } else if same(b"COUNT ", s) {
        Some(Name::Count)
    } else {
        None
    }
}

// The field whose length in bits a heading of this name gives.
#[tactic(auto, unfolding(crate::specs::Names::length_of, text::specs::Ascii::ascii))]
pub fn length_of(s: &[u8]) -> Option<Name>
    ensures { name_number result ≡ length_of s.now }
{
    if same(b"EntropyInputLen ", s) {
        Some(Name::EntropyInput)
    } else if same(b"NonceLen ", s) {
        Some(Name::Nonce)
    } else if same(b"PersonalizationStringLen ", s) {
        Some(Name::PersonalizationString)
    } else if same(b"AdditionalInputLen ", s) {
        Some(Name::AdditionalInput)
    } else if same(b"ReturnedBitsLen ", s) {
        Some(Name::ReturnedBits)
    } else {
        None
    }
}

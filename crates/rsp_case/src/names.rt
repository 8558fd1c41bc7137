// The numbers of the names, as the definitions have them, and the number of none.
use rsp_line::name::Name;

pub const ENTROPY_INPUT: u64 = Name::EntropyInput as u64;

pub const NONCE: u64 = Name::Nonce as u64;

pub const PERSONALIZATION_STRING: u64 = Name::PersonalizationString as u64;

pub const ADDITIONAL_INPUT: u64 = Name::AdditionalInput as u64;

pub const RETURNED_BITS: u64 = Name::ReturnedBits as u64;

pub const ENTROPY_INPUT_RESEED: u64 = Name::EntropyInputReseed as u64;

pub const ADDITIONAL_INPUT_RESEED: u64 = Name::AdditionalInputReseed as u64;

pub const ENTROPY_INPUT_PR: u64 = Name::EntropyInputPR as u64;

pub const COUNT: u64 = Name::Count as u64;

pub const NO_NAME: u64 = 0;

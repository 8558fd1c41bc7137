// The compression of one block in Rattle (FIPS 180-4 §6.2.2), proved equal to the definitions of the crate `standard`.

#![tactic(auto)]

pub mod digest;
pub mod rounds;
pub mod schedule;
pub mod words;

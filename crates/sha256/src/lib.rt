// SHA-256 in Rattle (FIPS 180-4 §6.2) over the compression of one block, proved equal to the definitions of the crate `standard`.

#![tactic(auto)]

pub mod padding;
pub mod reader;
pub mod running;
pub mod strings;

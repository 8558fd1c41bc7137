// Cases of a response file, read line by line: what a line does to the case at hand, and the fields kept in bytes.

#![tactic(auto)]

pub mod heads;
mod names;
pub mod point;
pub mod store;

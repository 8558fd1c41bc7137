// A line of a response file, and what it says.

#![tactic(auto)]

pub mod decimal;
pub mod hex;
pub mod line;
pub mod name;

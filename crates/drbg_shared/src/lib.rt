// What both mechanisms share: what each promises, strings read through as one, and the lent output.

#![tactic(auto)]

pub mod generator;
pub mod joined;
pub mod output;

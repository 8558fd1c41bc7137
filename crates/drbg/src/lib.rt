// A generator as it stands in a slot, of either mechanism.

#![tactic(auto)]

pub mod generator;
pub mod mechanism;

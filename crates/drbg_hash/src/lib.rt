// SP 800-90A §10.1.1 and 10.3.1: Hash_DRBG and the derivation function.

#![tactic(auto)]

pub mod generator;
pub mod hash_df;
pub mod hash_drbg;

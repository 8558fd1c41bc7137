// FIPS 198-1 and SP 800-90A §10.1.2: HMAC and HMAC_DRBG.

#![tactic(auto)]

pub mod generator;
pub mod hmac;
pub mod hmac_drbg;

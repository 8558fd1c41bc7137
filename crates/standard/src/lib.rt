// No code: the public standards as definitions (specs/) and laws about them (proofs/).

#![tactic(auto)]

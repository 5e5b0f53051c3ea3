// The scrambler x^7 + x^4 + 1. Document 01, 'From payload to points', step 1.
#![tactic(auto)]

pub mod outputs;
pub mod register;

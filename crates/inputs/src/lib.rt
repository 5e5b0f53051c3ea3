// The encoders' input bits: payload bits between service, tail and pad, scrambled. Document 01, 'From payload to points', step 1.
#![tactic(auto)]

pub mod line;

// The data bits of a symbol read back: scrambler, and service, tail and pad. Document 01, 'From payload to points', step 1 undone.
#![tactic(auto)]

pub mod bits;

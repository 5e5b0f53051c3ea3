// The data bits before scrambling: payload bits after the service bits, by whole bytes. Document 01, 'From payload to points', step 1.
#![tactic(auto)]

pub mod bits;

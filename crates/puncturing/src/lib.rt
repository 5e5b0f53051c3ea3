// The puncturing of one symbol: its coded bits, picked from the encoders' sums. Document 01, 'From payload to points', step 3.
#![tactic(auto)]

pub mod coded;

// The sums of the convolutional encoders over one symbol's inputs. Document 01, 'From payload to points', step 2.
#![tactic(auto)]

pub mod sums;

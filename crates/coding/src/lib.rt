// The label bits of any one data symbol, all streams: document 01, 'From payload to points', steps 1 to 5.
#![tactic(auto)]

pub mod labels;

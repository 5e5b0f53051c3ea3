// The points call: the points of any one symbol.
#![tactic(auto)]

pub mod points;

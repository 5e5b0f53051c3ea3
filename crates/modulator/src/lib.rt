// A symbol's points from its half labels and pilots, in the order of the lent slice.
#![tactic(auto)]

pub mod symbol;

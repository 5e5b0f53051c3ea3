// The strict reader's step: symbols 0, 1, 2 in order, with no noise.
#![tactic(auto)]

pub mod step;

// The pilots' signs.
#![tactic(auto)]

pub mod pilot;

// What the subcarriers of a channel are used for.
#![tactic(auto)]

pub mod layout;

// The place of the first point of a symbol that is none the rules give, asked for by itself.
#![tactic(auto)]

pub mod place;

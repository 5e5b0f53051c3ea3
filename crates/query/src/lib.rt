// The one-subcarrier question: what a subcarrier carries in a symbol.
#![tactic(auto)]

pub mod query;

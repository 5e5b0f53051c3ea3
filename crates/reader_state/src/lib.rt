// The strict reader's state by value: its start, its ranges, and its end.
#![tactic(auto)]

pub mod state;

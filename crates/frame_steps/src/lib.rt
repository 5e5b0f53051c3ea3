// The reader's steps over the symbols of a whole frame, and what they answer.
#![tactic(auto)]

pub mod steps;

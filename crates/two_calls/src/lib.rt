// Two calls of one kind for two frames, which promise demand 3 of their own answers and slices.
#![tactic(auto)]

pub mod two;

// The constellation mapper: points of two f32, each a whole number, and the quarter turn.
#![tactic(auto)]

pub mod point;

// A whole frame read from one slice of points, and the same as C callers see it.
#![tactic(auto)]

pub mod call;
pub mod read;

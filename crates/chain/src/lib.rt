// The coding chain of one HT data symbol. It knows numbers and bits, and nothing of settings or floats.
#![tactic(auto)]

pub mod plan;

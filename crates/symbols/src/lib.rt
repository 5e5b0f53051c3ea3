// The symbol count of settings.
#![tactic(auto)]

pub mod count;

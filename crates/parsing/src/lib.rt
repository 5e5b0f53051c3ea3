// The three numbers of a line of the listing's input (document 01, 'Checked by hand', its last part).
#![tactic(auto)]

pub mod numbers;

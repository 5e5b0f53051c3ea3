// The lines of the listing's input (document 01, 'Checked by hand', its last part).
#![tactic(auto)]

pub mod lines;

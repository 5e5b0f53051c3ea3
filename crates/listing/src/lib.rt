// The listing of symbol counts and HT-SIG bytes, line by line (document 01, 'Checked by hand', its last part).
#![tactic(auto)]

pub mod rows;

// A symbol's inputs out of its label bits, all encoders together. Document 01, 'From payload to points', steps 2 to 5 undone.
#![tactic(auto)]

pub mod forced;

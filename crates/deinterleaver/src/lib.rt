// A symbol's coded bits out of its label bits: interleaver and parser undone. Document 01, 'From payload to points', steps 4 and 5.
#![tactic(auto)]

pub mod coded;

// The inputs of one encoder out of its coded bits: puncturing and encoder undone. Document 01, 'From payload to points', steps 2 and 3.
#![tactic(auto)]

pub mod steps;

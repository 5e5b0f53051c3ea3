// From a symbol's inputs on: 11, or the symbol is accepted and its bytes are written.
#![tactic(auto)]

pub mod accept;

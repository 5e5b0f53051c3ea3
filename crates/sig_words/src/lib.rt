// HT-SIG as one number of 48 bits: from its fields and back, with the CRC, and its six bytes.
#![tactic(auto)]

pub mod words;

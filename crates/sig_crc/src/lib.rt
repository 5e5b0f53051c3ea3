// The CRC of HT-SIG as numbers.
#![tactic(auto)]

pub mod crc;

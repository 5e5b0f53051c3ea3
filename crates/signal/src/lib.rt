// The HT-SIG bytes of accepted settings, and the settings in HT-SIG bytes.
#![tactic(auto)]

pub mod ht_sig;

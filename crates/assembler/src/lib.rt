// The payload's bytes put together, symbol by symbol, out of the data bits. Document 01, 'From payload to points', step 1 undone.
#![tactic(auto)]

pub mod bytes;

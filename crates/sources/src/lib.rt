// Where each label bit of a symbol stands among its coded bits: parser and interleaver as one table. Document 01, 'From payload to points',
// steps 4 and 5.
#![tactic(auto)]

pub mod sources;

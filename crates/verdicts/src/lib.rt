// What is proved of the reader beside its contracts: when each refusal is given, and the place of refusal 9. It stands in specs/ and proofs/; there is no code
// here.
#![tactic(auto)]

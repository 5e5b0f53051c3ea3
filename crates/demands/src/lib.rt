// The customer's demands of the calls, sentence by sentence. They stand in specs/ and proofs/; there is no code here.
#![tactic(auto)]

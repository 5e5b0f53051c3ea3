// Laws that the other crates' proofs cite. They stand in specs/ and proofs/; there is no code here.
#![tactic(auto)]

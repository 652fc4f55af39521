// Laws that the proofs of several crates share. There is no code here.
#![tactic(auto)]

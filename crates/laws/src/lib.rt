// Laws that several crates cite, in proofs/.
#![tactic(auto)]

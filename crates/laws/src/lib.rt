// Laws of the definitions of `paper` that promises and code share: see specs/ and proofs/.
#![tactic(auto)]

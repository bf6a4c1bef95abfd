// Laws only, and no code: what the definition of the crosstalk sheet has to mean.
#![tactic(auto)]

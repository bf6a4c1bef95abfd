// Laws of the sampling call: no code.
#![tactic(auto)]

// Laws of the whole system, over any run of calls: no code.
#![tactic(auto)]

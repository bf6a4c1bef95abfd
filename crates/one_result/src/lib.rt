// Laws only, and no code: any two results that a contract allows are equal.
#![tactic(auto)]

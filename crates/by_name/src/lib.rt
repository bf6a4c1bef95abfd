// Laws only, and no code: the factors of a sheet reach the lists of a sampling by their names.
#![tactic(auto)]

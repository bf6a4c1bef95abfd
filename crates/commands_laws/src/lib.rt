// Laws only, and no code: what the definitions of commands and of the command call have to mean.
#![tactic(auto)]

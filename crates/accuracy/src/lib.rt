// Laws only, and no code: how far the computed carrier may lie from the exact one.
#![tactic(auto)]

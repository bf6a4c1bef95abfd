// Laws only, and no code: every public call that can refuse ends with one answer, and refuses by number.
#![tactic(auto)]

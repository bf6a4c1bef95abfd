#![tactic(auto)]

// Laws only, and no code: what the crates above share about doubles as whole numbers.

// Document 01's bench examples, B1 to B9: one table and one statement, and no code.
#![tactic(auto)]

// Laws only, and no code: no program that keeps a call's promise is one of document 01's stand-ins, and the promises are the code's own.
#![tactic(auto)]

// The crate is its specs: the definitions, laws and cases of the board whose list is a ring. It has no code to run.
#![tactic(auto)]

// Folds over the numbers that pass a test, lists and bytes: definitions and laws that every other crate cites. There is no code here.

#![tactic(auto)]

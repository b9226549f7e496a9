// What the calls promise, as theorems over the very definitions that their contracts name (document 01, "What the proofs settle"). There is
// nothing to run here: specs/ has the words of the statements, proofs/ a file for each promise.

#![tactic(auto)]

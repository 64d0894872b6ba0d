// The three demands as theorems over the calls' contracts: they hold of any program that meets them. Definitions and
// proofs only, no code runs here.

#![tactic(auto)]

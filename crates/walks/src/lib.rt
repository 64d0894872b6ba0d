// Walks in any system of states and numbered moves, and the order of runs: definitions and laws only, no code runs
// here.

#![tactic(auto)]

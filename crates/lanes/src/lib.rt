// Words as rows of digits and as sets: how a machine word holds the tokens of places, the bytes of a row, and a set
// of transitions. Definitions and laws, no code.

#![tactic(auto)]

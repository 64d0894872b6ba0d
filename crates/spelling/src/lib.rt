// How a file spells its case: laws on the bytes of a case, no code. What a right record spells where it stands, kind
// by kind; that the records of a file, from the first on, spell the case that they say (proofs/Kept.antt); how long
// the bytes of a case can be.

#![tactic(auto)]

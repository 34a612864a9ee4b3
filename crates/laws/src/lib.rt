// Definitions and laws on lists and numbers that the other crates share; all of it stands in specs/ and proofs/.
#![tactic(auto)]

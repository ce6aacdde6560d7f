// Nothing to run: demand 3 is in specs/, and its proof in specs/ and proofs/.
#![tactic(auto)]

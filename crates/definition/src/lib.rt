// Nothing to run: document 01 as mathematics is in specs/, and what is proved of it in specs/ and proofs/.
#![tactic(auto)]

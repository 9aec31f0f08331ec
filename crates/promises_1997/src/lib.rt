// No code: what the call that reads as the guides of 1997 do promises. Statements stand in specs/, proofs in proofs/.
#![tactic(auto)]

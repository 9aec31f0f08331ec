// No code: what the store's calls promise, statements in specs/ and their proofs in proofs/.
#![tactic(auto)]

// No code: what the call that says why a read is refused promises, statements in specs/ and their proofs in proofs/.
#![tactic(auto)]

// No code: what the call that compares two recordings promises, statements in specs/ and their proofs in proofs/.
#![tactic(auto)]

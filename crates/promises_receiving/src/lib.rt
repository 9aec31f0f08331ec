// What is promised of a receiver's calls: statements in specs/, their proofs in proofs/. No code.
#![tactic(auto)]

// No code: what the calls of the month's report promise together, in specs/ the statements and in proofs/ their proofs.
#![tactic(auto)]

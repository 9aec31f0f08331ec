// No code: what the calls promise together, in specs/ the statements and in proofs/ their proofs.
#![tactic(auto)]

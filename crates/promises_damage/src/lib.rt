// No code: what is promised of frames whose chips were spoiled, in specs/ the statements and in proofs/ their proofs.
#![tactic(auto)]

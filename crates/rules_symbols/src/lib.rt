// No code: what words are and what the choice of one is, in specs/; facts and laws in proofs/.
#![tactic(auto)]

// No code: the sums and keys by which words are chosen, in specs/; their laws in proofs/.
#![tactic(auto)]

// No code: what the choice of a word is worth, whoever makes it; its laws are in proofs/.
#![tactic(auto)]

// No code: bits to phases, the scrambler and the CRC, in specs/; facts and laws in proofs/.
#![tactic(auto)]

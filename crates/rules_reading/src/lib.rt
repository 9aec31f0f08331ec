// No code: what a reading of a recording is, in specs/; facts about whole readings in proofs/.
#![tactic(auto)]

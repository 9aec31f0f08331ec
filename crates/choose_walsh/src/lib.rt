// No code: butterflies over sixteen symbols abreast, in specs/; what they come to, in proofs/.
#![tactic(auto)]

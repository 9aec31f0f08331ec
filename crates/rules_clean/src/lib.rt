// No code: how frames that are decided as they were sent are read. In specs/ what a clean recording is, in proofs/ the
// laws, of clean frames and of cut ones among them.
#![tactic(auto)]

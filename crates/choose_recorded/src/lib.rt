// What is asked of recorded chips, whatever recorded them. No code.
#![tactic(auto)]

// No code: laws of lists, whole numbers and tables that every crate above may cite.
#![tactic(auto)]

// There and back between fields and tables and their ten bytes, over what the block computes: laws,
// no code.

#![tactic(auto)]

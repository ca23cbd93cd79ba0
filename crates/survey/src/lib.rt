// The types of block that occur and the most variables of each: no code.

#![tactic(auto)]

// What a wiring can hold: laws, no code.

#![tactic(auto)]

// The worked examples P1 to P12 of document 01, shown of the definitions: no code.

#![tactic(auto)]

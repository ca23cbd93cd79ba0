// A sheet and its list of records, there and back, and appended one by one: laws, no code.

#![tactic(auto)]

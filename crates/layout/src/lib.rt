// What of a text does not change what is read, and every table as a cover, shown of the definitions: no code.

#![tactic(auto)]

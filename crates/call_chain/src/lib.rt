// Calls cut into rows, and the chain of their operation records: theorems over the definitions, with no code. Assumes nothing.
#![tactic(auto)]

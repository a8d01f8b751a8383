// Calls for C: what the contract of one says, or those of two, one after the other. Theorems alone.
#![tactic(auto)]

// The module's promises: demand 3, every interval and every count over all programs of calls. Definitions in specs/, theorems in proofs/, no code.

#![tactic(auto)]

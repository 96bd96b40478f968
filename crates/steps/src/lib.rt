// Steps, runs and demand 3 for any measuring core: definitions in specs/, theorems in proofs/, and no code.

#![tactic(auto)]

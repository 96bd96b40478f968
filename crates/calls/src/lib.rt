// A program's calls of the module: what their contracts allow is what the steps of crate `steps` do. Definitions in specs/, theorems in proofs/, no code.

#![tactic(auto)]

// The search's tree and its depth-first walk: definitions in specs/, theorems in proofs/, and no code.

#![tactic(auto)]

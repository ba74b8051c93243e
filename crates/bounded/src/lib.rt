// Tests, sums, runs and first findings over the numbers below a bound: definitions in specs/, theorems in proofs/, and no code.

#![tactic(auto)]

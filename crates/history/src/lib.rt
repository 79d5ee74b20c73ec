// Demand 3 of document 01: what any history of calls leaves. The theorems stand in proofs/; there is no code.
#![tactic(auto)]

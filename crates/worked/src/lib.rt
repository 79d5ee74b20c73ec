// Worked examples and vectors of the papers, computed by the checker from the definitions. They stand in proofs/; there is no code.
#![tactic(auto)]

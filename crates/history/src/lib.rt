// Demand 3: statements in specs/, proofs in proofs/. There is no function here.
#![tactic(auto)]

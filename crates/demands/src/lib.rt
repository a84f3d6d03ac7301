// The demands, of the lent calls: statements in specs/, proofs in proofs/. There is no function here.
#![tactic(auto)]

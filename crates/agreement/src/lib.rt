// What device and reader agree on: statements in specs/, proofs in proofs/. There is no function here.
#![tactic(auto)]

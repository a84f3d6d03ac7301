// What holds of every event that a device meets: statements in specs/, proofs in proofs/. There is no function here.
#![tactic(auto)]

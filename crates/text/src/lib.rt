// Words and numbers as text: definitions in specs/, what holds of them in proofs/. There is no function here; `writing` has those.
#![tactic(auto)]

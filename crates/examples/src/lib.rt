// Examples of the definitions, computed in proofs/. There is no function here.
#![tactic(auto)]

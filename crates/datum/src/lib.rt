// Laws of plain data, and of an array while a list is copied into it: proofs in proofs/. There is no function here.
#![tactic(auto)]

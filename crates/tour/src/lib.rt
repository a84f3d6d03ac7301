// A walk over a device: what holds of it; no function.
#![tactic(auto)]

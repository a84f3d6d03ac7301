// Pages and SCSI data turned into each other: what holds of it; no function.
#![tactic(auto)]

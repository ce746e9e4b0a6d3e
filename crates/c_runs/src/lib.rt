//! Runs of small programs by the definitions of the machine, computed: their traces, and the faults of wrong C.
#![tactic(auto)]

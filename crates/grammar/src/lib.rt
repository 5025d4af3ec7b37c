// Definitions and theory only: no function is compiled from this crate.
#![tactic(auto)]

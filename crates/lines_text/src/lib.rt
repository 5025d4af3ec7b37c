// The texts that the program `lines` prints.
#![tactic(auto)]

pub mod text;

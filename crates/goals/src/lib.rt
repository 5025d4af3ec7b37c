// A plan replayed on goals, for Check (document 01, "Check, pairs, name").
#![tactic(auto)]

pub mod replay;
#[cfg(test)]
mod tests;

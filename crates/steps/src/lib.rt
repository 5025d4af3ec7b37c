// The deduction steps of one production at one split (document 01, "The chart").
#![tactic(auto)]

mod each;
mod element;
mod give;
mod keep;
pub mod step;

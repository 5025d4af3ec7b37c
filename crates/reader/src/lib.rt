// Read (document 01, "The plan" and "Refusals"): the answer, the chart in its room and the plan in its room.
#![tactic(auto)]

pub mod read;

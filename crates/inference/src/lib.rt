// Inference: which lines follow from a run and the lines listed so far, and which comes next.
#![tactic(auto)]

pub mod lines;
pub mod listing;
pub mod premises;
pub mod runs;

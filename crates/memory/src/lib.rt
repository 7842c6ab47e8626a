// What a run is: kinds, entries and records, models and clocks, lines, verdicts and refusals, and the rules of admission.
#![tactic(auto)]

pub mod admission;
pub mod clocks;
pub mod kinds;
pub mod limits;
pub mod lines;
pub mod models;
pub mod numbers;
pub mod reading;
pub mod records;
pub mod refusals;
pub mod settings;
pub mod verdicts;

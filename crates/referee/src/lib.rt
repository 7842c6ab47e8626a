// The referee: it reads a run and a paper, and accepts the paper or says what is wrong with one of the two.
#![tactic(auto)]

pub mod faults;
mod lines;
mod papers;
pub mod rulings;
mod runs;

// All that came of a run, in plain words.
#![tactic(auto)]

pub mod accounts;
mod contents;
mod ends;
mod headings;
mod orders;
mod reasons;
mod records;
mod rows;

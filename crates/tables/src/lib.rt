// Many runs in one table: what it is asked for, a row for each run, and the forms in which it is written.
#![tactic(auto)]

pub mod forms;
pub mod requests;
pub mod rows;
pub mod texts;
mod widths;

// Words for records, marks, verdicts and refusals, for programs that print them.
#![tactic(auto)]

pub mod words;

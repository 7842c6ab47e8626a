// A list over a lent slice, one type for every kind of entry.
#![tactic(auto)]

pub mod lent;

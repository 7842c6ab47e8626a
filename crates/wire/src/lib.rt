// Bytes: a reader that walks lent bytes field by field, what its fields say, and encoders into lent bytes.
#![tactic(auto)]

pub mod faults;
pub mod fields;
pub mod runs;
pub mod tags;
pub mod writing;

// Histories of calls on a case, read from bytes, call by call.
#![tactic(auto)]

pub mod invocations;
pub mod opcodes;

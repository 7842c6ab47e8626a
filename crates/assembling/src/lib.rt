// Text logs assembled to the bytes of runs, and runs disassembled to text logs.
#![tactic(auto)]

pub mod assembly;
pub mod disassembly;
pub mod troubles;

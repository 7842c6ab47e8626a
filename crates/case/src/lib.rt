// The case: opened, records admitted, lines inferred, sealed, searched; loaded from a run's bytes; written as run, slip and paper.
#![tactic(auto)]

pub mod cases;

// What inference reasons from.
use crate::runs::Run;
use memory::clocks::Clock;
use memory::lines::Line;
use memory::models::Model;

mod make;
mod next;
mod rules;

// The records of a run under a model and a clock, and the lines listed so far.
#[derive(Drop)]
pub struct Premises<'a, M: Model, C: Clock> {
    run: Run<'a, M, C>,
    lines: &'a [Line],
}

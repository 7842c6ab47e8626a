// A picture of a run, in SVG.
#![tactic(auto)]

mod arrows;
mod axis;
mod bars;
mod charts;
mod curves;
mod elements;
mod geometry;
mod lanes;
mod layouts;
mod legends;
pub mod pictures;
mod words;

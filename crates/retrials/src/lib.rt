// Tests of the referee: what it answers, and what its lists hold afterwards; and a worked example, run.
#![tactic(auto)]

#[cfg(test)]
mod examples;
#[cfg(test)]
mod judged;
#[cfg(test)]
mod lent;
#[cfg(test)]
mod papers;
#[cfg(test)]
mod places;
#[cfg(test)]
mod runs;
#[cfg(test)]
mod tools;

// Tests of the checker: its calls, its bytes and what they answer.
#![tactic(auto)]

#[cfg(test)]
mod admission;
#[cfg(test)]
mod inferring;
#[cfg(test)]
mod lines;
#[cfg(test)]
mod loading;
#[cfg(test)]
mod models;
#[cfg(test)]
mod papers;
#[cfg(test)]
mod sealing;
#[cfg(test)]
mod searching;
#[cfg(test)]
mod tools;
#[cfg(test)]
mod writing;

//! Tests of markers, outputs and steps with trivia, through the public API.
#![tactic(auto)]

#[cfg(test)]
mod markers;
#[cfg(test)]
mod steps;
#[cfg(test)]
mod trivia;

//! Tests of the queue, with elements of two known types and of a type with a parameter.
#![tactic(auto)]

mod arrival;
mod first;
mod line;
mod ready;
mod ticks;
mod waiting;
#[cfg(test)]
mod worked;

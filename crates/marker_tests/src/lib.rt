//! Tests of the marker on plans that were worked through by hand.
#![tactic(auto)]

#[cfg(test)]
mod worked;

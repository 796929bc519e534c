//! Tests of the reader on lines written by hand.
#![tactic(auto)]

#[cfg(test)]
mod parting;
#[cfg(test)]
mod reading;
#[cfg(test)]
mod writing;

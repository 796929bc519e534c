//! Tests of drawing, on plans that were worked through by hand.
#![tactic(auto)]

#[cfg(test)]
mod ask;
#[cfg(test)]
mod calls;
#[cfg(test)]
mod case;
#[cfg(test)]
mod disorder;
#[cfg(test)]
mod filling;
#[cfg(test)]
mod fixture;
#[cfg(test)]
mod hops;
#[cfg(test)]
mod horizon;
#[cfg(test)]
mod incoming;
#[cfg(test)]
mod marking;
#[cfg(test)]
mod order;
#[cfg(test)]
mod placing;
#[cfg(test)]
mod refusing;
#[cfg(test)]
mod setting;
#[cfg(test)]
mod state;
#[cfg(test)]
mod trials;

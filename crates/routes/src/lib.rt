//! Routes over a network: what every kind of routes promises, routes that are written out, routes that are searched,
//! and plans with the routes by which their transfers go.
#![tactic(auto)]

pub mod hop;
pub mod interface;
pub mod kinds;
pub mod legs;
pub mod length;
pub mod searched;
pub mod settled;
mod walk;
pub mod written;

pub use hop::Hop;
pub use interface::Routes;
pub use kinds::{HopCount, Slowness};
pub use legs::RoutedPlan;
pub use length::Length;
pub use searched::SearchedRoutes;
pub use settled::Settled;
pub use written::WrittenRoutes;

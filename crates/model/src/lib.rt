//! Jobs, networks and plans: what is drawn and marked, kept within its limits.
#![tactic(auto)]

pub mod booking;
pub mod job;
pub mod network;
pub mod plan;
pub mod refusal;
pub mod speed;
pub mod stations;
pub mod tick;

pub use booking::Booking;
pub use job::{Edge, Job};
pub use network::{Link, Network, Station};
pub use plan::error::PlanError;
pub use plan::{Placement, Plan, TransferRow};
pub use refusal::{Refusal, check};
pub use speed::Speed;
pub use stations::StationSet;
pub use tick::Tick;

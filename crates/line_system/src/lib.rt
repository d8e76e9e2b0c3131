//! The system: the line and the history of its script, with the state that they leave.
//!
//! A `System` answers each event: it is not built, it breaks a premise, or it goes, and gives its messages and outcome
//! lines. What a system holds besides its history is what the history leaves, so that no answer reads the history again.
#![tactic(auto)]

pub mod system;

pub use system::{Answer, System};
pub use world_sim::Premise;

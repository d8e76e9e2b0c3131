//! Ways: paths that carry a mark, and the places on them.
//!
//! A place on a way counts mm from the start of its first step. The mark is the number of steps that the train's journey
//! had before that step, so an offset on a step of the journey has a place on every way with that step.
#![tactic(auto)]

pub mod on_steps;
mod points;
pub mod way;

pub use way::{Way, WayFault};

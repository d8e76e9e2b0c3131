//! The train's side: what it keeps of its authorities, and how it decides on a further one.
#![tactic(auto)]

pub mod onboard;

pub use onboard::{Onboard, Verdict};

//! How far an ask reaches on a zone's own track, past what is held for other trains and what is closed.
//!
//! What lies in the way of another train is held, and a segment may be closed: both are obstacles. A walk over the steps of
//! an asked way finds the first cell of each kind. A reach ends at the first obstacle, and a way is lengthened by what is
//! reached.
#![tactic(auto)]

pub mod closed;
pub mod held;
pub mod reach;
pub mod steps;

pub use closed::ClosedSegments;
pub use reach::{Barring, Reach};

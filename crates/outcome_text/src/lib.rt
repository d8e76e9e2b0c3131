//! Outcome lines and last lines as text.
//!
//! Each outcome and each ending has one spelling, with its end of line.
#![tactic(auto)]

pub mod ending;
pub mod outcome;
mod table;
mod values;

pub use ending::write_ending;
pub use outcome::write_outcome;

//! The line: built item by item under its rules, and asked for its zones, segments and steps.
//!
//! A `LineBuilder` takes the items one by one and refuses each that breaks a rule. What it finishes is a `Line`, and
//! every `Line` is valid: no other code can make one. Both keep the items with an index of them, so that an answer takes a time
//! that does not grow with their number: which zones are declared, how trains brake and when one is silent, and for each declared
//! segment one entry with its zone, its length and what uses its two ends, found by the segment's id in one look.
#![tactic(auto)]

pub mod builder;
mod ends;
mod index;
pub mod line;
mod notes;
mod order;
mod rules;
mod table;

pub use builder::{LineBuilder, LineFault};
pub use definitions::item::{End, Item};
pub use line::{After, Line};

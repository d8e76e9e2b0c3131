//! The numbers of one train's authorities, as its controller keeps them.
#![tactic(auto)]

pub mod ledger;

pub use ledger::{Answered, Ledger, Pending, Shrink};

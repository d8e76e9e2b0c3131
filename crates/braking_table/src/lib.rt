//! How far a train goes at most from where it is told to stop.
#![tactic(auto)]

pub mod table;

pub use table::{Brake, Table, TableFault};

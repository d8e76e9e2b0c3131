//! The top call: a document from a source to a sink, under the command that words name.
#![tactic(auto)]

pub mod pump;
pub mod top;
pub mod usage;

//! Text lines read and written by a table of forms.
//!
//! The reader finds the form by its word and then walks its parts once; where nothing continues it answers the column. It is
//! proved once for every table that keeps the tests of `text_forms`.
#![tactic(auto)]

pub mod fault;
pub mod read;
mod tokens;
mod words;
pub mod write;

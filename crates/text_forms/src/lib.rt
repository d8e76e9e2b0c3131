//! The grammar of text lines as data.
//!
//! A grammar is a table of forms. A form is a word and parts, the last of which may repeat; each part has one value. What
//! a text says is the place of its form in the table and the values of its parts. `specs/` has the one spelling of each
//! form with its values, where a text leaves a grammar, and reading from the front.
#![tactic(auto)]

pub mod part;
pub mod row;

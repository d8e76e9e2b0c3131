//! Events and outcome lines as text.
//!
//! Each event has one spelling, without an end of line. A text that is no event is refused at the column at which the grammar
//! ends, and an event with a field that is out of its range, or names what is not declared, at the first byte of that field.
#![tactic(auto)]

mod columns;
mod fields;
mod form;
pub mod line;
mod names;
pub mod read;
mod slice;
mod table;
mod values;
pub mod write;

pub use form_codec::fault::TextFault;
pub use form_codec::read::Values;
pub use line::event_line;
pub use outcome_text::write_outcome;
pub use read::read_event;
pub use write::write_event;

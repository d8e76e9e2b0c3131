//! Line items as text lines.
//!
//! Each item has one spelling, without an end of line. A text that is no item is refused at its column.
#![tactic(auto)]

pub mod item;
pub mod line;
mod table;
mod values;

pub use form_codec::fault::TextFault;
pub use item::{read_line_item, write_item};
pub use line::item_line;

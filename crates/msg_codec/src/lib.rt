//! Messages as frames of bytes, and the room for what one step gives.
//!
//! A frame is the one spelling of a message as bytes: a version, a kind, and the fields of the kind, numbers with their
//! greatest byte first. The definitions have the fields with their widths and ranges, and what reading bytes from the left gives.
#![tactic(auto)]

pub mod outs;
pub mod writing;

pub use definitions::event::Event;
pub use definitions::frame::Unread;
pub use definitions::message::{Hand, Msg, Order, SeenWhat};
pub use definitions::outcome::{FrameFault, Outcome};
pub use frame_reading::{decode, reading};
pub use outs::Outs;
pub use writing::encode;

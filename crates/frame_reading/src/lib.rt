//! The message that the bytes of a frame spell.
//!
//! The version and the kind are read first, and then the fields of the kind from the left; the first fault on the way is told.
//! The definitions have the fields with their widths and ranges, and what reading bytes from the left gives.
#![tactic(auto)]

pub mod reading;

pub use reading::decode;

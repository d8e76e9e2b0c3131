//! The fields of frames: each is read from the left, and written behind what stands there.
//!
//! Numbers have their greatest byte first. The definitions have the fields with their widths and ranges.
#![tactic(auto)]

pub mod flags;
pub mod reading;
pub mod writing;

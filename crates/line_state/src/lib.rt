//! The state that a script leaves: the world, the zone, and the links between them, whose messages are kept as frames.
#![tactic(auto)]

mod link;
mod losses;
pub mod state;

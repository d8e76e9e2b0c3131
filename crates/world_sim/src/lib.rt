//! The world: its clock, its list of trains, what each of its steps gives and makes of a train, where each train stands in the
//! list, by its id, and which authorities it acts on.
#![tactic(auto)]

pub mod places;
pub mod trains;
pub mod world;

pub use msg_codec::{Event, Outcome};
pub use world::{Premise, World};

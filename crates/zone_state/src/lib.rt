//! The zone: the ways of the trains that it controls, and how far it lengthens them.
//!
//! A zone grants an entry over the whole portal segment, and an ask up to the first obstacle on the asked way. What lies in
//! the way of another train is held: it is an obstacle, and no train enters over it. A segment that is closed is an obstacle
//! too, and an order to close one takes nothing back. Of each train the zone shows the points of its way in the zone's own
//! track, and the points from its least rear to its greatest front.
//!
//! A short order lets a zone send an authority that ends before the way does, a shrink. What lies beyond its end is given up
//! only once the train has taken it: then the way ends there. Until it is answered nothing more is granted. One that the
//! train refuses changes nothing, and so does one whose end the least front has passed.
//!
//! As Now rises the fronts of all trains grow, up to the ends of their ways. A report narrows those of its train, and its
//! way is cut behind the rear. A train of which no report tells for too long is silent.
#![tactic(auto)]

mod clock;
mod orders;
mod report;
mod trains;
pub mod zone;

pub use msg_codec::{Outcome, Outs};
pub use zone::Zone;

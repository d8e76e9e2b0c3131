//! The trains that a zone controls, each by itself and in their list: what a message and the time do to them.
//!
//! A train enters over the whole portal segment, and its way is lengthened by what an ask reaches. A shrink is an authority
//! that ends before the way does: the way stays until the train has taken it, and one whose end the least front has passed
//! counts as refused. As Now rises the fronts of all trains grow, up to the ends of their ways. A report narrows those of
//! its train, and its way is cut behind the rear.
#![tactic(auto)]

pub mod clock;
pub mod messages;
pub mod report;
pub mod shrinks;
pub mod trains;

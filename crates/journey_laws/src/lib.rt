//! Laws of the clock, of where trains were when, and of journeys: a journey is the track from its first step up to the head, and
//! no step comes twice after a portal. And the invariant of a train, what every event keeps of it: its authorities, its reports,
//! and where it may be.
#![tactic(auto)]

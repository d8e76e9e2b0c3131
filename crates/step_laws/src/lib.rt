//! The invariant of a train is kept by every event: first of reports and possible fronts, then of authorities, the longest of them,
//! what a new one is and what leaves them as they are, then all together.
#![tactic(auto)]

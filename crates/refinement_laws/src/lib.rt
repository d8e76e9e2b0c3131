//! What the plain state tells is what the story tells, event by event.
#![tactic(auto)]

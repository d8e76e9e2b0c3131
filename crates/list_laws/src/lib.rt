//! Laws of tests, numbers and lists alone.
#![tactic(auto)]

//! Laws of what an event does: what it takes and issues, and what an entry makes of each notion.
#![tactic(auto)]

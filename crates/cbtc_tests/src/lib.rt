//! Tests: whole documents through the top call, and of the layers below it the calls that no document shows.
#![tactic(auto)]

#[cfg(test)]
mod rows;
#[cfg(test)]
mod tests;

//! One file for each layer, the lines on which they are tried, and whole documents.

mod decisions;
mod documents;
mod events;
mod frames;
mod fronts;
mod items;
mod ledger;
mod line;
mod outcomes;
mod sets;
mod stops;
mod system;
mod tables;
mod zone;

//! A row of a table of forms.

use crate::part::Part;

/// A form as the program has it: its word, its parts, and a group of parts that comes at the end of the line, between so
/// many and so many times.
#[derive(Clone, Copy)]
pub struct Row {
    /// The word, or the words, with which the text begins.
    pub word: &'static [u8],

    /// The parts after the word.
    pub parts: &'static [Part],

    /// The parts that are repeated.
    pub group: &'static [Part],

    /// How often at least.
    pub least: usize,

    /// How often at most.
    pub most: usize,
}

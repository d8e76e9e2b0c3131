//! Why a text line is refused.

use thiserror::Error;

/// A text line is none of its grammar.
#[derive(Clone, Copy, Debug, Error)]
#[error("the text line is none of its grammar")]
pub struct TextFault {
    /// The place, from 1, of the first byte at which no text of the grammar continues; the end of the line counts as a byte. It
    /// is 4097 where that is later.
    pub column: u32,
}

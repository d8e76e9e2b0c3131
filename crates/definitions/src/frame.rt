//! Why a field of a frame is not read.

/// Why a field was not read.
#[derive(Clone, Copy)]
pub enum Unread {
    /// The bytes end inside it or before it.
    Short,
    /// It is out of its range, by the number of bytes from its first on.
    Out(usize),
}

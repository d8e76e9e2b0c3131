//! The kinds of parts.

/// A set of words of which one stands in a part. Each begins with its space.
#[derive(Clone, Copy)]
pub enum Words {
    /// ` eq` or ` un`: whether a train tells where it is.
    Kind,

    /// ` normal` or ` reverse`: how a switch lies.
    Position,

    /// ` +` or ` -`: a direction.
    Direction,

    /// ` free` or ` occ`: what a section shows.
    Occupancy,

    /// ` old`, ` new` or ` get`: which call of a keeper fails, and which record a put leaves.
    KeepFault,

    /// ` taken` or ` refused`: what a train answers to an authority.
    Answer,

    /// ` known`, ` toomany` or ` toolong`: why an entry is refused.
    EntryRefusal,

    /// ` held` or ` notfree`: what a refused entry meets; the number after it names which.
    EntryObstacle,

    /// ` away`, ` unequipped`, ` pending` or ` place`: why an authority is not shortened.
    ShortRefusal,

    /// ` held` or ` section`: what a refused turn of a switch meets; the number after it names which.
    SwitchObstacle,

    /// ` short`, ` version`, ` kind` or ` long`: what is wrong with a frame.
    FrameFault,

    /// ` field`: a field of a frame is wrong; the number after it is its place.
    FieldFault,
}

/// A part of a text line, with the byte that stands before it. Each has one value.
#[derive(Clone, Copy)]
pub enum Part {
    /// A space and a number of at most 13 digits, without a leading zero.
    Number,

    /// A colon and such a number.
    Colon,

    /// A space and a number that may have a `-` before it, and then is not 0; the value of `-n` is 10^13 + n.
    Signed,

    /// `+`, whose value is 0, or `-`, whose value is 1: it makes the number before it an end or a step.
    Sign,

    /// One of some words; the value is its place among them, from 0.
    Word(Words),

    /// A space and a byte as two digits in base 16, in lower case.
    FirstByte,

    /// A byte as two digits in base 16, in lower case.
    Byte,
}

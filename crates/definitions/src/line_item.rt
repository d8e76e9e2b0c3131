//! Line items as their text lines say them, those that have no meaning yet among them.
ghost use Rattle.std.specs.Prelude.{◌≡◌};
ghost use Rattle.definitions.specs.ItemText.{built_item};

use crate::item::{End, Item};
use arrayvec::ArrayVec;
use track_points::Dir;

/// A range `S:LO:HI` of a section: the segment, and the mm from which and to which the section has its cells.
#[derive(Clone, Copy, Default)]
pub struct SectionRange {
    pub segment: u64,
    pub lo: u64,
    pub hi: u64,
}

/// A line item of any form. Its numbers are as read, before the rules are tried.
#[derive(Drop)]
pub enum LineItem {
    /// A zone.
    Zone(u64),
    /// A segment, its zone, and its length in mm.
    Segment(u64, u64, u64),
    /// Two ends that meet.
    Joint(End, End),
    /// A switch, its point, normal and reverse end, and the length of its throat in mm.
    Switch(u64, End, End, End, u64),
    /// An end where trains come on and leave.
    Portal(End),
    /// An end where the track ends.
    Buffer(End),
    /// A section and its ranges.
    Section(u64, ArrayVec<SectionRange, 3>),
    /// A block, its direction and its segments.
    Block(u64, Dir, ArrayVec<u64, 16>),
    /// How trains brake: for how many ticks of 10 ms the speed rises at first, and the rates of its rise and of its fall
    /// in mm/s per second.
    Brake(u64, u64, u64),
    /// How many ms without a used report make a train silent.
    Silent(u64),
}

impl LineItem {
    /// The item that the rules and the program know; none of a form that has no meaning yet.
    pub fn built(&self) -> Option<Item>
        ensures { result ≡ built_item self.now }
    {
        match self {
            LineItem::Zone(zone) => Some(Item::Zone(*zone)),
            LineItem::Segment(segment, zone, length) => {
                Some(Item::Segment(*segment, *zone, *length))
            }
            LineItem::Joint(one, other) => Some(Item::Joint(*one, *other)),
            LineItem::Portal(end) => Some(Item::Portal(*end)),
            LineItem::Buffer(end) => Some(Item::Buffer(*end)),
            LineItem::Brake(ticks, runaway, rate) => Some(Item::Brake(*ticks, *runaway, *rate)),
            LineItem::Silent(ms) => Some(Item::Silent(*ms)),
            LineItem::Switch(..) | LineItem::Section(..) | LineItem::Block(..) => None,
        }
    }
}

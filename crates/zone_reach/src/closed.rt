//! Which segments are closed, and the first closed place on an asked way.
ghost use Rattle.std.specs.Prelude.{◌≡◌, ◌≤◌, ◌*◌, length, IfOk};
ghost use Rattle.plain_state.specs.Plain.{none_closed};
ghost use Rattle.plain_state.specs.Zone.{closed_at, with_closed};
ghost use Rattle.zone_reach.specs.Closed.{closed_on, first_closed};

use line_map::Line;
use std::alloc::{AllocError, Global};
use std::marker::Model;
use track_points::{DirSeg, SegId};
use way_path::on_steps::{length_of, zone_of};

/// How many ids a segment can have, 0 among them.
const IDS: usize = 32_768;

/// Which segments are closed. Its memory, a byte for each id, is reserved when it is made.
#[derive(Drop)]
pub struct ClosedSegments {
    closed: Vec<bool>,
}

impl Model for ClosedSegments {
    ghost use Rattle.std.specs.Prelude.{Bool, List, ◌≡◌, length};

    ghost Value = { List Bool };

    ghost view = { λ c. c.closed.items };

    ghost invariant = { λ c. length c.closed.items ≡ 32768 };
}

impl ClosedSegments {
    /// None is closed.
    pub fn new(alloc: Global) -> Result<ClosedSegments, AllocError>
        ensures { IfOk result (λ c. c ≡ none_closed) }
    {
        Ok(ClosedSegments {
            closed: vec![in alloc; false; IDS]?,
        })
    }

    /// Whether a segment is closed.
    pub fn has(&self, seg: SegId) -> bool
        ensures { result ≡ closed_at self.now seg.0 }
    {
        let place = seg.0 as usize;
        place < self.closed.len() && self.closed[place]
    }

    /// Closes or opens a segment.
    pub fn set(&mut self, seg: SegId, closed: bool)
        ensures { self.new ≡ with_closed seg.0 closed self.old }
    {
        let place = seg.0 as usize;
        if place < self.closed.len() {
            self.closed[place] = closed;
        }
    }
}

/// The first offset of a step, from one on, whose cell is of a closed segment of the zone's own; the length where there is
/// none.
fn closed_on(line: &Line, zone: u8, closed: &ClosedSegments, step: DirSeg, from: u64) -> u64
    ensures { result ≡ closed_on line.now zone closed.now step from }
{
    let len = length_of(line, step.seg) as u64;
    if zone_of(line, step.seg) == zone && closed.has(step.seg) {
        from.min(len)
    } else {
        len
    }
}

/// The first place of an asked way, from one on, that is of a closed segment of the zone's own; the end of the way where
/// there is none.
#[tactic(auto, unfolding(crate::specs::Walk::first_place))]
pub fn first_closed(
    line: &Line,
    zone: u8,
    closed: &ClosedSegments,
    asked: &[DirSeg],
    from: u64,
) -> u64
    requires { length asked.now ≤ 48 }
    ensures closed { result ≡ first_closed line.now zone closed.now asked.now from }
    ensures most { result ≤ 10000000 * length asked.now }
{
    match asked {
        [] => 0,
        [step, rest @ ..] => {
            let len = length_of(line, step.seg) as u64;
            let here = closed_on(line, zone, closed, *step, from);
            if here < len {
                here
            } else {
                len + first_closed(line, zone, closed, rest, from.saturating_sub(len))
            }
        }
    }
}

//! Ways.
ghost use Rattle.std.specs.Prelude.{◌≡◌, ◌<◌, ◌≤◌, ◌+◌, ◌^◌, length, ◌&&◌, nat_eq, IfOk, OnOk};
ghost use Rattle.track_points.specs.Points.{Point, total, has_between};
ghost use Rattle.track_points.specs.Sets.{set_has};
ghost use Rattle.definitions.specs.Track.{owner, seg_len, layout};
ghost use Rattle.definitions.specs.Ways.{IsFront, IsRear};
ghost use Rattle.way_path.specs.Ways.{IsWay, OnLine, EndsWithPath, Makes, place_of, Extends, ended_at, Dropped};

use crate::on_steps::{
    end_of, front_on, last_step, not_joined, offset_to, rear_on, repeated, steps_before,
    steps_from, steps_to, total, visits,
};
use crate::points::points_of;
use line_map::Line;
use std::marker::Model;
use thiserror::Error;
use track_points::{DirSeg, Path, PointSet, ZoneId};

/// Why a way is refused.
#[derive(Clone, Copy, Debug, Error)]
pub enum WayFault {
    /// The step of this index, from 0, does not follow the one before it. It is the first such step.
    #[error("a step does not follow the one before it")]
    NotJoined(u8),
    /// An earlier step has the segment of the step of this index, from 0. It is the first such step.
    #[error("a step is on a segment of an earlier step")]
    Repeated(u8),
    /// There is no step, an offset lies outside its segment, or the path does not begin before it ends.
    #[error("no steps, or offsets out of their range")]
    OutOfRange,
    /// The path has points in more than 8 throats. Lines without switches have none.
    #[error("more than 8 throats")]
    Throats,
    /// The way has 24 steps already.
    #[error("more than 24 steps")]
    Full,
}

/// A path with a mark: the number of steps that the train's journey had before the path's first step.
///
/// The place of the end is kept beside the path, since `extend` leaves the end where it is: from then on `to` of the path
/// is an offset on the step on which the way still ends, and no longer on the last one, until `set_end`.
#[derive(Drop)]
pub struct Way {
    mark: u32,
    path: Path,
    end: u32,
}

impl Model for Way {
    ghost use Rattle.way_path.specs.Ways.{PlacedWay, IsWay};

    ghost Value = { PlacedWay };

    ghost view = { λ w. record { mark = w.mark; path = w.path; end = w.end } };

    ghost invariant = { λ w. IsWay (record { mark = w.mark; path = w.path; end = w.end }) };
}

impl Way {
    /// The way of a path on a line. The path is copied. Of its faults the one is named that comes first in `WayFault`.
    pub fn of_path(line: &Line, mark: u32, path: &Path) -> Result<Way, WayFault>
        requires { mark + length path.now.steps.items < 2 ^ 32 }
        ensures makes { Makes line.now mark path.now result }
        ensures on_line { IfOk result (λ way. OnLine line.now way) }
    {
        let steps = path.steps.as_slice();
        if let Some(i) = not_joined(line, steps) {
            return Err(WayFault::NotJoined(i));
        }
        if let Some(i) = repeated(steps) {
            return Err(WayFault::Repeated(i));
        }
        let Some(end) = end_of(line, path) else {
            return Err(WayFault::OutOfRange);
        };
        let path = path.copy();
        Ok(Way { mark, path, end })
    }

    /// The place where it begins.
    pub fn from(&self) -> u32
        ensures { result ≡ self.now.path.from }
    {
        self.path.from
    }

    /// The place where it ends.
    pub fn end(&self) -> u32
        ensures { result ≡ self.now.end }
    {
        self.end
    }

    /// The number of the journey's steps before its first.
    pub fn mark(&self) -> u32
        ensures { result ≡ self.now.mark }
    {
        self.mark
    }

    /// Its path.
    pub fn path(&self) -> &Path
        ensures path { result.now ≡ self.now.path }
        ensures way { IsWay self.now }
    {
        &self.path
    }

    /// The step of a front at a place, and its offset there: 1 to the length.
    pub fn front_at(&self, line: &Line, place: u32) -> (DirSeg, u32)
        requires front { 0 < place }
        requires on { place ≤ total (seg_len line.now) self.now.path.steps.items }
        ensures { IsFront (seg_len line.now) self.now.path.steps.items place result.0 result.1 }
    {
        front_on(line, self.path.steps.as_slice(), place)
    }

    /// The step of a rear at a place, and its offset there: 0 to below the length.
    pub fn rear_at(&self, line: &Line, place: u32) -> (DirSeg, u32)
        requires { place < total (seg_len line.now) self.now.path.steps.items }
        ensures { IsRear (seg_len line.now) self.now.path.steps.items place result.0 result.1 }
    {
        rear_on(line, self.path.steps.as_slice(), place)
    }

    /// The place of an offset on the journey's step with that mark; `None` where the way has no such step.
    pub fn place_of(&self, line: &Line, mark: u32, off: i32) -> Option<i64>
        ensures { result ≡ place_of (seg_len line.now) self.now mark off }
    {
        if mark < self.mark {
            return None;
        }
        let index = (mark - self.mark) as usize;
        if index >= self.path.steps.len() {
            return None;
        }
        let start = total(line, &self.path.steps.as_slice()[..index]);
        Some(i64::from(start) + i64::from(off))
    }

    /// The points between two places.
    pub fn points(&self, line: &Line, lo: u32, hi: u32) -> PointSet
        requires from { self.now.path.from ≤ lo }
        requires order { lo ≤ hi }
        requires end { hi ≤ self.now.end }
        ensures { (point : Point) → set_has result point ≡ has_between (layout line.now) self.now.path.steps.items lo hi point }
    {
        points_of(line, None, self.path.steps.as_slice(), lo, hi)
    }

    /// The points between two places that a zone owns.
    pub fn points_in(&self, line: &Line, zone: ZoneId, lo: u32, hi: u32) -> PointSet
        requires from { self.now.path.from ≤ lo }
        requires order { lo ≤ hi }
        requires end { hi ≤ self.now.end }
        ensures { (point : Point) → set_has result point ≡ (nat_eq (owner line.now point) zone.0 && has_between (layout line.now) self.now.path.steps.items lo hi point) }
    {
        points_of(line, Some(zone), self.path.steps.as_slice(), lo, hi)
    }

    /// Adds a step, and leaves the end where it is. A fault is named by the index that the step would have, and leaves the
    /// way as it was.
    pub fn extend(&mut self, line: &Line, step: DirSeg) -> Result<(), WayFault>
        requires on_line { OnLine line.now self.old }
        requires marks { self.old.mark + length self.old.path.steps.items + 1 < 2 ^ 32 }
        ensures extends { Extends line.now self.old step result self.new }
        ensures on_line { OnLine line.now self.new }
    {
        let count = self.path.steps.len();
        if count == 24 {
            return Err(WayFault::Full);
        }
        let steps = self.path.steps.as_slice();
        if !line.follows(last_step(steps), step) {
            return Err(WayFault::NotJoined(count as u8));
        }
        if visits(steps, step.seg) {
            return Err(WayFault::Repeated(count as u8));
        }
        self.path.steps.push(step);
        Ok(())
    }

    /// Sets the end to a place, and drops the steps past it.
    pub fn set_end(&mut self, line: &Line, place: u32)
        requires on_line { OnLine line.now self.old }
        requires from { self.old.path.from < place }
        requires on { place ≤ total (seg_len line.now) self.old.path.steps.items }
        ensures ended { self.new ≡ ended_at (seg_len line.now) self.old place }
        ensures end { EndsWithPath (seg_len line.now) self.new }
        ensures on_line { OnLine line.now self.new }
    {
        self.path.to = offset_to(line, self.path.steps.as_slice(), place);
        self.path.steps = steps_to(line, self.path.steps.as_slice(), place);
        self.end = place;
    }

    /// Begins the way at a place, and drops the steps wholly before it. Answers their length, by which all places are less
    /// from then on.
    pub fn set_from(&mut self, line: &Line, place: u32) -> u32
        requires on_line { OnLine line.now self.old }
        requires from { self.old.path.from ≤ place }
        requires end { place < self.old.end }
        ensures dropped { Dropped (seg_len line.now) self.old self.new place result }
        ensures end { EndsWithPath (seg_len line.now) self.old → EndsWithPath (seg_len line.now) self.new }
        ensures on_line { OnLine line.now self.new }
    {
        let (count, start) = steps_before(line, self.path.steps.as_slice(), place);
        self.path.steps = steps_from(self.path.steps.as_slice(), count);
        self.path.from = place - start;
        self.mark += count as u32;
        self.end -= start;
        start
    }
}

//! A valid line, and what can be asked of it.
ghost use Rattle.std.specs.Prelude.{◌≡◌, ◌≤◌, [], true, None, vec_capacity, IfOk};
ghost use Rattle.braking_table.specs.Made.{fault_of};
ghost use Rattle.definitions.specs.Track.{end_eq, has_zone, has_segment, seg_len, zone_of, follows, begins_at_portal, exit_of, entrance_of, next_step, brake_of, silent_after};
ghost use Rattle.definitions.specs.Rules.{is_line};
ghost use Rattle.line_map.specs.Order.{IsSegmentAt, IsZoneAt};
ghost use Rattle.line_map.specs.Next.{after_of, after_use, is_portal_use, joins_where, step_in, AfterIs, FitsUse};

use crate::ends::{EndUse, same_end, turned};
use crate::index::LineIndex;
use crate::order::{ascending, zone_number};
use braking_table::Brake;
use definitions::item::End;
use std::alloc::{AllocError, Global};
use std::marker::Model;
use track_points::{DirSeg, SegId, ZoneId};

/// What follows the exit end of a step.
#[derive(Clone, Copy)]
pub enum After {
    /// One step, which comes in at the other end of the joint.
    Plain(DirSeg),
    /// A portal, where trains leave the line.
    Portal,
    /// The end of the track.
    Buffer,
}

/// A valid line: its items with their index, and its segments by ascending id. Only a `LineBuilder` makes one.
#[derive(Drop)]
pub struct Line {
    index: LineIndex,
    order: Vec<u16>,
}

impl Model for Line {
    ghost use Rattle.std.specs.Prelude.{List};
    ghost use Rattle.definitions.specs.declared.item.Item.{Item};

    ghost Value = { List Item };

    ghost use Rattle.line_map.specs.Order.{Stands};

    ghost view = { λ l. l.index };

    ghost invariant = { λ l. Stands l.index l.order.items };
}

fn exit_end(step: DirSeg) -> End
    ensures { result ≡ exit_of step }
{
    End {
        segment: step.seg.0 as u64,
        dir: step.dir,
    }
}

fn entrance_end(step: DirSeg) -> End
    ensures { result ≡ entrance_of step }
{
    End {
        segment: step.seg.0 as u64,
        dir: turned(step.dir),
    }
}

/// The step that comes in at an end.
fn step_at(e: End) -> DirSeg
    requires { e.segment ≤ 32767 }
    ensures { result ≡ step_in e }
{
    DirSeg {
        seg: SegId(e.segment as u16),
        dir: turned(e.dir),
    }
}

/// What an end leads to, by what uses it.
fn leads_to(used: EndUse) -> After
    requires { FitsUse used }
    ensures { result ≡ after_use used }
{
    match used {
        EndUse::Joined(e) => After::Plain(step_at(e)),
        EndUse::Portal => After::Portal,
        EndUse::Free => After::Buffer,
        EndUse::Buffer => After::Buffer,
    }
}

/// Whether a joint uses an end, and its other end is the one given.
fn joins_with(used: EndUse, other: End) -> bool
    ensures { result ≡ joins_where (λ e. end_eq e other) used }
{
    match used {
        EndUse::Joined(e) => same_end(e, other),
        EndUse::Portal => false,
        EndUse::Free => false,
        EndUse::Buffer => false,
    }
}

fn is_portal_use(used: EndUse) -> bool
    ensures { result ≡ is_portal_use used }
{
    match used {
        EndUse::Joined(_) => false,
        EndUse::Portal => true,
        EndUse::Free => false,
        EndUse::Buffer => false,
    }
}

impl Line {
    /// The line of items that break no rule, in room for the order of its segments.
    pub(crate) fn of(index: LineIndex, room: Vec<u16>) -> Line
        requires valid { is_line index ≡ true }
        requires empty { room.items ≡ [] }
        requires room { 512 ≤ vec_capacity room }
        ensures { result ≡ index }
    {
        let order = ascending(&index, room);
        Line { index, order }
    }

    /// The same line once more, in memory of its own.
    pub fn copy(&self, alloc: Global) -> Result<Line, AllocError>
        ensures { IfOk result (λ line. line ≡ self.now) }
    {
        let index = self.index.copy(alloc)?;
        let order = Vec::from_slice(alloc, self.order.as_slice())?;
        Ok(Line { index, order })
    }

    /// Whether the zone is declared.
    pub fn has_zone(&self, z: ZoneId) -> bool
        ensures { result ≡ has_zone self.now z.0 }
    {
        self.index.has_zone(z.0 as u64)
    }

    /// Whether the segment is declared.
    pub fn has_segment(&self, s: SegId) -> bool
        ensures { result ≡ has_segment self.now s.0 }
    {
        self.index.has_segment(s.0 as u64)
    }

    /// The length of a declared segment in mm.
    pub fn seg_len(&self, s: SegId) -> u32
        requires { has_segment self.now s.0 ≡ true }
        ensures len { result ≡ seg_len self.now s.0 }
        ensures some { 1 ≤ result }
        ensures most { result ≤ 10000000 }
    {
        self.index.length_of(s.0 as u64) as u32
    }

    /// The zone of a declared segment.
    pub fn zone_of(&self, s: SegId) -> ZoneId
        requires { has_segment self.now s.0 ≡ true }
        ensures { result.0 ≡ zone_of self.now s.0 }
    {
        ZoneId(self.index.zone_of(s.0 as u64) as u8)
    }

    /// Whether the second step can follow the first.
    pub fn follows(&self, a: DirSeg, b: DirSeg) -> bool
        ensures { result ≡ follows self.now a b }
    {
        joins_with(self.index.use_of(exit_end(a)), entrance_end(b))
    }

    /// Whether the step goes inward from a portal.
    pub fn begins_at_portal(&self, step: DirSeg) -> bool
        ensures begins { result ≡ begins_at_portal self.now step }
        ensures declared { result ≡ true → has_segment self.now step.seg.0 ≡ true }
    {
        is_portal_use(self.index.use_of(entrance_end(step)))
    }

    /// How trains brake. There is a table of their stops.
    pub fn brake(&self) -> Brake
        ensures exact { result ≡ brake_of self.now }
        ensures sound { fault_of result ≡ None }
    {
        self.index.brake()
    }

    /// How many ms without a used report make a train silent.
    pub fn silent(&self) -> u64
        ensures { result ≡ silent_after self.now }
    {
        self.index.silent_after()
    }

    /// What follows the exit end of a step: each end of a line is used by exactly one joint, portal or buffer.
    pub fn after(&self, at: DirSeg) -> After
        requires { has_segment self.now at.seg.0 ≡ true }
        ensures is { result ≡ after_of self.now at }
        ensures next { AfterIs (next_step self.now at) result }
    {
        leads_to(self.index.use_of(exit_end(at)))
    }

    /// The k-th declared zone by ascending id, from 0; `None` where there are not more than k.
    pub fn zone(&self, k: usize) -> Option<ZoneId>
        ensures { IsZoneAt self.now k result }
    {
        zone_number(&self.index, k)
    }

    /// The k-th declared segment by ascending id, from 0; `None` where there are not more than k.
    pub fn segment(&self, k: usize) -> Option<SegId>
        ensures { IsSegmentAt self.now k result }
    {
        let order = self.order.as_slice();
        if k < order.len() {
            Some(SegId(order[k]))
        } else {
            None
        }
    }
}

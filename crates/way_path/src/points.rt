//! The points between two places on steps.
ghost use Rattle.std.specs.Prelude.{◌≡◌, ◌<◌, ◌≤◌, ◌+◌, [], ◌&&◌, ◌||◌, length, ℕ};
ghost use Rattle.track_points.specs.Points.{Point, Cell, has_between};
ghost use Rattle.track_points.specs.Sets.{in_range, has_cell, set_has};
ghost use Rattle.definitions.specs.Track.{seg_len, layout};
ghost use Rattle.way_path.specs.Ways.{step_has, segment_of, point_of};

use crate::on_steps::{length_of, zone_of};
use line_map::Line;
use track_points::{Dir, DirSeg, PointSet, Range, SegId, ZoneId};

/// The cells of a step between two offsets.
fn cells_of(step: DirSeg, len: u32, from: u32, hi: u32) -> Range
    requires order { from < hi }
    requires within { hi ≤ len }
    ensures cells { (s mm : ℕ) → in_range result s mm ≡ step_has len step from hi s mm }
    ensures order { result.lo < result.hi }
{
    match step.dir {
        Dir::Up => Range {
            seg: step.seg,
            lo: from,
            hi,
        },
        Dir::Down => Range {
            seg: step.seg,
            lo: len - hi,
            hi: len - from,
        },
    }
}

/// Adds the cells of a step between two offsets.
fn add_step(line: &Line, step: DirSeg, from: u32, to: u32, set: &mut PointSet)
    requires room { length set.old.ranges < 24 }
    ensures cells { (s mm : ℕ) → has_cell set.new s mm ≡ (has_cell set.old s mm || step_has (seg_len line.now step.seg.0) step from to s mm) }
    ensures grows { length set.new.ranges ≤ length set.old.ranges + 1 }
    ensures tokens { set.new.tokens ≡ set.old.tokens }
{
    let len = length_of(line, step.seg);
    let hi = to.min(len);
    if from < hi {
        let Ok(()) = set.add_range(cells_of(step, len, from, hi)) else {
            unreachable!()
        };
    }
}

/// Whether the points of a segment are among those of a zone; where none is named, all are.
fn is_of(line: &Line, zone: Option<ZoneId>, s: SegId) -> bool
    ensures { result ≡ segment_of line.now zone s.0 }
{
    match zone {
        None => true,
        Some(zone) => zone_of(line, s) == zone.0,
    }
}

/// Adds the cells of a step between two offsets, those of a zone alone where one is named.
fn add_step_of(
    line: &Line,
    zone: Option<ZoneId>,
    step: DirSeg,
    from: u32,
    to: u32,
    set: &mut PointSet,
)
    requires room { length set.old.ranges < 24 }
    ensures cells { (s mm : ℕ) → has_cell set.new s mm ≡ (has_cell set.old s mm || (segment_of line.now zone s && step_has (seg_len line.now step.seg.0) step from to s mm)) }
    ensures grows { length set.new.ranges ≤ length set.old.ranges + 1 }
    ensures tokens { set.new.tokens ≡ set.old.tokens }
{
    if is_of(line, zone, step.seg) {
        add_step(line, step, from, to, set);
    }
}

/// Adds the points of some steps between two places, those of a zone alone where one is named.
fn add_points(
    line: &Line,
    zone: Option<ZoneId>,
    steps: &[DirSeg],
    lo: u32,
    hi: u32,
    set: &mut PointSet,
)
    requires room { length set.old.ranges + length steps.now ≤ 24 }
    ensures cells { (s mm : ℕ) → has_cell set.new s mm ≡ (has_cell set.old s mm || (segment_of line.now zone s && has_between (layout line.now) steps.now lo hi (Cell s mm))) }
    ensures tokens { set.new.tokens ≡ set.old.tokens }
{
    if let [step, rest @ ..] = steps {
        add_step_of(line, zone, *step, lo, hi, set);
        let len = length_of(line, step.seg);
        add_points(
            line,
            zone,
            rest,
            lo.saturating_sub(len),
            hi.saturating_sub(len),
            set,
        );
    }
}

/// The points of some steps between two places, those of a zone alone where one is named.
pub fn points_of(line: &Line, zone: Option<ZoneId>, steps: &[DirSeg], lo: u32, hi: u32) -> PointSet
    requires { length steps.now ≤ 24 }
    ensures { (point : Point) → set_has result point ≡ (point_of line.now zone point && has_between (layout line.now) steps.now lo hi point) }
{
    let mut set = PointSet::empty();
    add_points(line, zone, steps, lo, hi, &mut set);
    set
}

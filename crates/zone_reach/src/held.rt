//! What is held for other trains: the first such place on an asked way, and who holds a segment.
ghost use Rattle.std.specs.Prelude.{◌≡◌, ◌≤◌, ◌*◌, length, min, nat_eq, Some, if◌then◌else◌};
ghost use Rattle.definitions.specs.Track.{seg_len};
ghost use Rattle.definitions.specs.Authority.{less_of};
ghost use Rattle.plain_state.specs.Zone.{train_on, holder_plain};
ghost use Rattle.zone_reach.specs.Held.{cells_on, first_from, first_in, near_step, near_steps, near_train, near_trains, near_on, first_held};

use crate::steps::place_of_last;
use line_map::Line;
use plain_state::Controlled;
use track_points::{Dir, DirSeg, SegId, TrainId};
use way_path::on_steps::{length_of, visits, zone_of};

/// The cells of a segment from one mm to below another.
#[derive(Clone, Copy)]
pub(crate) struct Cells {
    lo: u64,
    hi: u64,
}

/// The cells that a step passes from one offset to below another, on a segment of a length.
fn cells_on(len: u64, dir: Dir, lo: u64, hi: u64) -> Cells
    ensures { result ≡ cells_on len dir lo hi }
{
    match dir {
        Dir::Up => Cells {
            lo,
            hi: hi.min(len),
        },
        Dir::Down => Cells {
            lo: len.saturating_sub(hi),
            hi: len.saturating_sub(lo),
        },
    }
}

/// The start of a range, or the length where the range is empty.
fn first_from(len: u64, start: u64, end: u64) -> u64
    ensures { result ≡ first_from len start end }
{
    if start < end { start } else { len }
}

/// The first offset of a step, from one on, whose cell is among these; the length where there is none.
fn first_in(len: u64, dir: Dir, cells: Cells, from: u64) -> u64
    ensures { result ≡ first_in len dir cells from }
{
    match dir {
        Dir::Up => first_from(len, from.max(cells.lo), cells.hi),
        Dir::Down => first_from(
            len,
            from.max(len.saturating_sub(cells.hi)),
            len.saturating_sub(cells.lo),
        ),
    }
}

/// The first offset of a step, from one on, whose cell a step of a way covers between two of its offsets.
fn near_step(line: &Line, covering: DirSeg, lo: u64, hi: u64, step: DirSeg, from: u64) -> u64
    ensures { result ≡ near_step (seg_len line.now) covering lo hi step from }
{
    let len = length_of(line, step.seg) as u64;
    if covering.seg.0 == step.seg.0 {
        first_in(len, step.dir, cells_on(len, covering.dir, lo, hi), from)
    } else {
        len
    }
}

/// The first offset of a step, from one on, whose cell lies on some steps between two places.
#[tactic(auto, unfolding(crate::specs::Held::near_steps))]
fn near_steps(line: &Line, steps: &[DirSeg], lo: u64, hi: u64, step: DirSeg, from: u64) -> u64
    ensures { result ≡ near_steps (seg_len line.now) steps.now lo hi step from }
{
    match steps {
        [] => length_of(line, step.seg) as u64,
        [first, rest @ ..] => {
            let here = near_step(line, *first, lo, hi, step, from);
            let len = length_of(line, first.seg) as u64;
            let there = near_steps(
                line,
                rest,
                lo.saturating_sub(len),
                hi.saturating_sub(len),
                step,
                from,
            );
            here.min(there)
        }
    }
}

/// The first offset of a step, from one on, whose cell lies in a way.
fn near_train(line: &Line, other: &Controlled, step: DirSeg, from: u64) -> u64
    ensures { result ≡ near_train (seg_len line.now) other.now step from }
{
    let path = other.way.path();
    let steps = path.steps.as_slice();
    let end = place_of_last(line, steps, path.to);
    near_steps(line, steps, path.from as u64, end, step, from)
}

/// The nearer of this offset and the first one whose cell lies in a way. A way that does not visit the segment is passed
/// over.
#[tactic(auto, using(crate::proofs::Train_away::train_away))]
fn or_near_train(line: &Line, other: &Controlled, step: DirSeg, from: u64, nearest: u64) -> u64
    requires { nearest ≤ seg_len line.now step.seg.0 }
    ensures { result ≡ min (near_train (seg_len line.now) other.now step from) nearest }
{
    if visits(other.way.path().steps.as_slice(), step.seg) {
        near_train(line, other, step, from).min(nearest)
    } else {
        nearest
    }
}

/// The same of a train that may be this one, whose own way bars nothing.
fn or_near_other(
    line: &Line,
    other: &Controlled,
    train: TrainId,
    step: DirSeg,
    from: u64,
    nearest: u64,
) -> u64
    requires { nearest ≤ seg_len line.now step.seg.0 }
    ensures { result ≡ (if nat_eq other.now.id.0 train.0 then nearest else min (near_train (seg_len line.now) other.now step from) nearest) }
{
    if other.id.0 == train.0 {
        nearest
    } else {
        or_near_train(line, other, step, from, nearest)
    }
}

/// The first offset of a step, from one on, whose cell lies in the way of another train than this one.
fn near_trains(line: &Line, trains: &[Controlled], train: TrainId, step: DirSeg, from: u64) -> u64
    ensures { result ≡ near_trains (seg_len line.now) train.0 trains.now step from }
{
    let mut nearest = length_of(line, step.seg) as u64;
    for other in trains {
        nearest = or_near_other(line, other, train, step, from, nearest);
    }
    nearest
}

/// The first offset of a step, from one on, whose cell is of the zone's own and held for another train than this one.
fn near_on(
    line: &Line,
    zone: u8,
    trains: &[Controlled],
    train: TrainId,
    step: DirSeg,
    from: u64,
) -> u64
    ensures { result ≡ near_on line.now zone trains.now train.0 step from }
{
    if zone_of(line, step.seg) == zone {
        near_trains(line, trains, train, step, from)
    } else {
        length_of(line, step.seg) as u64
    }
}

/// The first place of an asked way, from one on, that is held for another train than this one; the end of the way where
/// there is none.
#[tactic(auto, unfolding(crate::specs::Walk::first_place))]
pub fn first_held(
    line: &Line,
    zone: u8,
    trains: &[Controlled],
    train: TrainId,
    asked: &[DirSeg],
    from: u64,
) -> u64
    requires { length asked.now ≤ 48 }
    ensures held { result ≡ first_held line.now zone trains.now train.0 asked.now from }
    ensures most { result ≤ 10000000 * length asked.now }
{
    match asked {
        [] => 0,
        [step, rest @ ..] => {
            let len = length_of(line, step.seg) as u64;
            let here = near_on(line, zone, trains, train, *step, from);
            if here < len {
                here
            } else {
                len + first_held(line, zone, trains, train, rest, from.saturating_sub(len))
            }
        }
    }
}

/// Whether a way that visits a segment has a cell of it, which is of the zone's own.
fn visited_on(line: &Line, zone: u8, other: &Controlled, s: SegId) -> bool
    ensures { result ≡ train_on line.now zone s.0 other.now }
{
    let step = DirSeg {
        seg: s,
        dir: Dir::Up,
    };
    zone_of(line, s) == zone && near_train(line, other, step, 0) < length_of(line, s) as u64
}

/// Whether a way has a cell of a segment of the zone's own.
#[tactic(auto, using(crate::proofs::Train_away::on_away))]
fn train_on(line: &Line, zone: u8, other: &Controlled, s: SegId) -> bool
    ensures { result ≡ train_on line.now zone s.0 other.now }
{
    if visits(other.way.path().steps.as_slice(), s) {
        visited_on(line, zone, other, s)
    } else {
        false
    }
}

fn lesser(one: u16, other: Option<u16>) -> u16
    ensures { result ≡ less_of one other }
{
    match other {
        None => one,
        Some(other) => one.min(other),
    }
}

/// The lesser of this id and that of a train, where a cell of a segment of the zone's own is held for the train; else this.
fn or_holder(line: &Line, zone: u8, other: &Controlled, s: SegId, least: Option<u16>) -> Option<u16>
    ensures { result ≡ (if train_on line.now zone s.0 other.now then Some (less_of other.now.id.0 least) else least) }
{
    if train_on(line, zone, other, s) {
        Some(lesser(other.id.0, least))
    } else {
        least
    }
}

/// The least train for which a cell of a segment of the zone's own is held.
pub fn holder(line: &Line, zone: u8, trains: &[Controlled], s: SegId) -> Option<u16>
    ensures { result ≡ holder_plain line.now zone trains.now s.0 }
{
    let mut least = None;
    for other in trains {
        least = or_holder(line, zone, other, s, least);
    }
    least
}

//! How far an ask reaches.
ghost use Rattle.std.specs.Prelude.{◌≡◌, ◌≤◌, ◌<◌, ◌+◌, length, take, nat_lt, Some, true, max};
ghost use Rattle.track_points.specs.Points.{total, place_of_last};
ghost use Rattle.definitions.specs.Track.{seg_len, last_step};
ghost use Rattle.definitions.specs.Limit.{reach_from, barred};
ghost use Rattle.plain_state.specs.Zone.{barring_plain};
ghost use Rattle.zone_reach.specs.Reach.{nearer, end_stop, bar_stop, stop_on, stop_reach, reach_value, path_fits, ReachFits};

use crate::closed::{ClosedSegments, first_closed};
use crate::held::first_held;
use crate::steps::{asked_way, continues, place_of_last};
use definitions::outcome::Obstacle;
use line_map::Line;
use plain_state::Controlled;
use track_points::{DirSeg, Path, TrainId};
use way_path::on_steps::{last_step, length_of, total};

/// How far an extension reaches beyond the end of a way, in mm, and what stops it there.
#[derive(Clone, Copy)]
pub struct Reach {
    pub distance: u32,
    pub obstacle: Obstacle,
}

/// What stands in the way of an ask on the zone's own track: the ways of the trains, and the closed segments.
#[derive(Clone, Copy)]
pub struct Barring<'a> {
    pub trains: &'a [Controlled],
    pub closed: &'a ClosedSegments,
}

/// An obstacle at a place.
#[derive(Clone, Copy)]
pub(crate) struct Stop {
    place: u64,
    obstacle: Obstacle,
}

/// Of two obstacles the nearer one, the first at a tie. One before the limit does not stand.
fn nearer(limit: u64, stands: bool, other: Stop, so_far: Stop) -> Stop
    ensures { result ≡ nearer limit stands other so_far }
{
    if stands && limit <= other.place && other.place < so_far.place {
        other
    } else {
        so_far
    }
}

/// The first 24 steps.
fn first_steps(asked: &[DirSeg]) -> &[DirSeg]
    ensures steps { result.now ≡ take 24 asked.now }
    ensures few { length result.now ≤ 24 }
{
    if asked.len() > 24 {
        &asked[..24]
    } else {
        asked
    }
}

/// The first held place and the first closed place of an asked way, from the place of the limit on.
#[derive(Clone, Copy)]
pub(crate) struct Places {
    held: u64,
    closed: u64,
}

/// The nearer of the end of the ask and the end of the track, where the ask goes beyond it.
fn end_stop(line: &Line, asked: &[DirSeg], limit: u64, to: u32) -> Stop
    requires few { length asked.now ≤ 48 }
    requires some { 0 < length asked.now }
    ensures { result ≡ end_stop (nat_lt (seg_len line.now (last_step asked.now).seg.0) to) limit (max limit (place_of_last (seg_len line.now) asked.now to)) (total (seg_len line.now) asked.now) }
{
    let ask_ends = Stop {
        place: limit.max(place_of_last(line, asked, to)),
        obstacle: Obstacle::AskEnds,
    };
    let track_ends = Stop {
        place: total(line, asked) as u64,
        obstacle: Obstacle::TrackEnds,
    };
    let beyond_track = length_of(line, last_step(asked).seg) < to;
    nearer(limit, beyond_track, track_ends, ask_ends)
}

/// The nearer of this stop, the first held place and the first closed one, each of which is the end of all steps where
/// there is none.
fn bar_stop(limit: u64, end: u64, places: Places, so_far: Stop) -> Stop
    ensures { result ≡ bar_stop limit end places.held places.closed so_far }
{
    let held = Stop {
        place: places.held,
        obstacle: Obstacle::Held,
    };
    let closed = Stop {
        place: places.closed,
        obstacle: Obstacle::Closed,
    };
    let so_far = nearer(limit, places.held < end, held, so_far);
    nearer(limit, places.closed < end, closed, so_far)
}

/// The first obstacle on an asked way, from the place of the limit on.
fn stop_on(line: &Line, asked: &[DirSeg], limit: u64, to: u32, places: Places) -> Stop
    requires few { length asked.now ≤ 48 }
    requires some { 0 < length asked.now }
    requires near { limit ≤ total (seg_len line.now) (take 24 asked.now) }
    ensures stop { result ≡ stop_on (seg_len line.now) asked.now limit to places.held places.closed }
    ensures after { limit ≤ result.place }
    ensures within { result.place ≤ total (seg_len line.now) (take 24 asked.now) }
    ensures most { result.place ≤ 240000000 }
{
    let end = total(line, asked) as u64;
    let path_full = Stop {
        place: total(line, first_steps(asked)) as u64,
        obstacle: Obstacle::PathFull,
    };
    let barred = bar_stop(limit, end, places, end_stop(line, asked, limit, to));
    nearer(limit, asked.len() > 24, path_full, barred)
}

/// How far an ask reaches on the asked way.
fn reach_on(line: &Line, asked: &[DirSeg], limit: u64, to: u32, places: Places) -> Reach
    requires few { length asked.now ≤ 48 }
    requires some { 0 < length asked.now }
    requires near { limit ≤ total (seg_len line.now) (take 24 asked.now) }
    ensures reach { reach_value result ≡ stop_reach limit (stop_on (seg_len line.now) asked.now limit to places.held places.closed) }
    ensures within { limit + result.distance ≤ total (seg_len line.now) (take 24 asked.now) }
    ensures most { limit + result.distance ≤ 240000000 }
{
    let stop = stop_on(line, asked, limit, to, places);
    Reach {
        distance: (stop.place - limit) as u32,
        obstacle: stop.obstacle,
    }
}

/// How an obstacle bars an ask.
pub fn barred(obstacle: Obstacle) -> Reach
    ensures barred { reach_value result ≡ barred obstacle }
    ensures none { result.distance ≡ 0 }
{
    Reach {
        distance: 0,
        obstacle,
    }
}

/// How far an ask reaches beyond the end of a way. An ask of a train that is not ready, or that does not continue the
/// way, is barred, and so is one of a train whose shrink is unanswered, and one of a train that is silent. On the zone's own
/// track the ways of the other trains and the closed segments are obstacles.
#[tactic(auto, using(way_laws::proofs::Cut_front::total_front))]
pub fn reach_from(
    line: &Line,
    zone: u8,
    bars: Barring,
    train: TrainId,
    ready: bool,
    pending: bool,
    silent: bool,
    path: &Path,
    asked: &[DirSeg],
    to: u32,
) -> Reach
    requires few { length asked.now ≤ 24 }
    requires fits { path_fits (seg_len line.now) path.now ≡ true }
    ensures reach { reach_value result ≡ reach_from line.now ready pending silent (Some path.now) asked.now to (barring_plain line.now zone bars.entry.trains.now bars.entry.closed.now train.0) }
    ensures fits { ReachFits line.now path.now asked.now result.distance }
{
    let steps = path.steps.as_slice();
    let all = asked_way(steps, asked);
    let way = all.as_slice();
    if !(ready && continues(line, steps, asked, way)) {
        return barred(Obstacle::NotJoined);
    }
    if pending {
        return barred(Obstacle::Pending);
    }
    if silent {
        return barred(Obstacle::Silent);
    }
    let limit = place_of_last(line, steps, path.to);
    let places = Places {
        held: first_held(line, zone, bars.trains, train, way, limit),
        closed: first_closed(line, zone, bars.closed, way, limit),
    };
    reach_on(line, way, limit, to, places)
}

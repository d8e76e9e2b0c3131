//! What a report does: it narrows the fronts of its train, and the way is cut behind the rear.
ghost use Rattle.std.specs.Prelude.{◌≡◌, ◌≤◌, ◌∷◌, [], Some};
ghost use Rattle.definitions.specs.Track.{seg_len};
ghost use Rattle.definitions.specs.Steps.{nothing};
ghost use Rattle.way_path.specs.Ways.{place_of};
ghost use Rattle.plain_state.specs.Zone.{place_found, place_of_train, narrowed_train, reported_by, cut_at_rear};
ghost use Rattle.zone_trains.specs.Trains.{TrainFits, TrainStands, IsHold};

use crate::shrinks::check;
use crate::trains::hold_of;
use line_map::Line;
use msg_codec::{Outcome, Outs};
use plain_state::Controlled;
use track_points::{PointSet, ZoneId};

/// A report of a train: its time, where the front was, as an offset on the step of a mark, and whether the train is whole.
#[derive(Clone, Copy)]
pub struct PositionReport {
    pub time: u64,
    pub mark: u32,
    pub offset: i32,
    pub integrity: bool,
}

/// Keeps the fronts that a report leaves, which says a place.
fn narrow(x: &mut Controlled, place: i64, time: u64, integrity: bool)
    requires ordered { x.old.fronts.lo ≤ x.old.fronts.hi }
    requires earlier { time ≤ x.old.fronts.at }
    requires ahead { x.old.fronts.hi ≤ x.old.way.end }
    ensures { x.new ≡ narrowed_train place time integrity x.old }
{
    let limit = x.way.end();
    x.fronts
        .by_report(place, x.error, time, integrity, x.speed, limit);
    x.report = x.report.max(time);
}

/// Tells where a train is: its least rear and its greatest front.
fn tell_place(line: &Line, zone: u8, x: &Controlled, outs: &mut Outs)
    requires stands { TrainStands line.now x.now }
    requires empty { outs.old ≡ nothing }
    ensures { outs.new ≡ record { issued = []; lines = place_of_train (seg_len line.now) zone x.now ∷ [] } }
{
    let (rear, rear_offset) = x.way.rear_at(line, x.fronts.rear(x.train_length));
    let (front, front_offset) = x.way.front_at(line, x.fronts.hi);
    outs.tell(Outcome::Place(ZoneId(zone), x.id, rear, rear_offset, front, front_offset));
}

/// Cuts the way of a train behind its rear, and answers what is held for it then.
fn cut(line: &Line, zone: u8, x: &mut Controlled) -> PointSet
    requires { TrainStands line.now x.old }
    ensures next { x.new ≡ cut_at_rear (seg_len line.now) x.old }
    ensures fits { TrainFits line.now x.old.fronts.at x.new }
    ensures hold { IsHold line.now zone x.new result }
{
    let rear = x.fronts.rear(x.train_length);
    let dropped = x.way.set_from(line, rear);
    x.fronts.lo -= dropped;
    x.fronts.hi -= dropped;
    x.ledger.shift(dropped);
    hold_of(line, zone, &x.way)
}

/// A train takes its report, which says a place on its way. Answers what is held for it then.
pub fn use_report(
    line: &Line,
    zone: u8,
    x: &mut Controlled,
    place: i64,
    report: PositionReport,
    outs: &mut Outs,
) -> PointSet
    requires empty { outs.old ≡ nothing }
    requires fits { TrainFits line.now x.old.fronts.at x.old }
    requires earlier { report.time ≤ x.old.fronts.at }
    requires place { place_of (seg_len line.now) x.old.way report.mark report.offset ≡ Some place }
    ensures gives { outs.new ≡ place_found (seg_len line.now) zone report.time report.mark report.offset report.integrity (Some x.old) }
    ensures next { x.new ≡ reported_by (seg_len line.now) report.time report.mark report.offset report.integrity x.old }
    ensures fits { TrainFits line.now x.old.fronts.at x.new }
    ensures hold { IsHold line.now zone x.new result }
{
    narrow(x, place, report.time, report.integrity);
    check(x);
    tell_place(line, zone, x, outs);
    cut(line, zone, x)
}

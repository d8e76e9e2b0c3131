//! The trains that a zone controls: where each stands among them, how one enters, and how its way is lengthened.
ghost use Rattle.std.specs.Prelude.{ℕ, ◌≡◌, ◌≤◌, ◌<◌, ◌&&◌, length, slice_index_or, nat_eq, true, false, None};
ghost use Rattle.track_points.specs.Points.{Point, has_between};
ghost use Rattle.track_points.specs.Sets.{set_has};
ghost use Rattle.definitions.specs.Track.{owner, seg_len, layout};
ghost use Rattle.definitions.specs.Steps.{nothing, deny, refuse, entry_path, enter_or_held};
ghost use Rattle.way_path.specs.Ways.{IsWay, OnLine, EndsWithPath};
ghost use Rattle.plain_state.specs.Zone.{lengthened, full, fresh_train, train_at_entry, entry_way};
ghost use Rattle.zone_reach.specs.Reach.{reach_value, ReachFits};
ghost use Rattle.plain_state.specs.declared.Controlled.{Controlled};
ghost use Rattle.zone_trains.specs.Trains.{TrainFits, IsHold, Ascend, IsPlace, path_granted};

use crate::messages::{fresh_mark, fresh_number};
use arrayvec::ArrayVec;
use authority_ledger::Ledger;
use definitions::outcome::{Obstacle, Refusal};
use envelope::Fronts;
use line_map::Line;
use msg_codec::{Msg, Outcome, Outs};
use plain_state::Controlled;
use track_points::{DirSeg, Path, PointSet, TrainId, ZoneId};
use way_path::Way;
use way_path::on_steps::last_step;
use zone_reach::reach::Reach;
use zone_reach::steps::lengthen_way;

/// How many trains have an id below that of a train. They stand before all others.
fn count_below(trains: &[Controlled], train: TrainId) -> usize
    requires { Ascend trains.now }
    ensures within { result ≤ length trains.now }
    ensures below { (k : ℕ) (d : Controlled) → k < result → (slice_index_or trains.now k d).id.0 < train.0 }
    ensures rest { (k : ℕ) (d : Controlled) → result ≤ k → k < length trains.now → train.0 ≤ (slice_index_or trains.now k d).id.0 }
{
    trains.partition_point(|x| x.id.0 < train.0)
}

/// Where a train stands among some, or else where it goes in.
pub fn place_among(trains: &[Controlled], train: TrainId) -> Result<usize, usize>
    requires { Ascend trains.now }
    ensures { IsPlace train.0 trains.now result }
{
    let i = count_below(trains, train);
    if i < trains.len() && trains[i].id.0 == train.0 {
        Ok(i)
    } else {
        Err(i)
    }
}

pub fn denied(zone: u8, train: TrainId, reach: Reach, outs: &mut Outs)
    requires { outs.old ≡ nothing }
    ensures { outs.new ≡ deny zone train (reach_value reach) }
{
    outs.tell(Outcome::Deny(ZoneId(zone), train, reach.obstacle));
}

/// The points of a way that a zone owns.
pub fn hold_of(line: &Line, zone: u8, way: &Way) -> PointSet
    ensures hold { (point : Point) → set_has result point ≡ (nat_eq (owner line.now point) zone && has_between (layout line.now) way.now.path.steps.items way.now.path.from way.now.end point) }
    ensures way { IsWay way.now }
{
    let from = way.path().from;
    way.points_in(line, ZoneId(zone), from, way.end())
}

/// Lengthens the way of a train up to a distance from its end, under its next number. Answers what is held for it then.
pub fn lengthen(
    line: &Line,
    zone: u8,
    x: &mut Controlled,
    asked: &[DirSeg],
    distance: u32,
) -> PointSet
    requires fits { TrainFits line.now x.old.fronts.at x.old }
    requires fresh { fresh_train x.old ≡ true }
    requires none { x.old.ledger.pending ≡ None }
    requires some { 0 < distance }
    requires reaches { ReachFits line.now x.old.way.path asked.now distance }
    ensures next { x.new ≡ lengthened (seg_len line.now) asked.now distance x.old }
    ensures fits { TrainFits line.now x.old.fronts.at x.new }
    ensures hold { IsHold line.now zone x.new result }
{
    lengthen_way(line, &mut x.way, asked, distance);
    let _ = x.ledger.issue_longer();
    hold_of(line, zone, &x.way)
}

/// Sends the authority over a train's way, with the line that tells it.
pub fn granted(zone: u8, train: TrainId, x: &Controlled, obstacle: Obstacle, outs: &mut Outs)
    requires { outs.old ≡ nothing }
    ensures { outs.new ≡ path_granted zone train x.now obstacle }
{
    let path = x.way.path();
    outs.tell(Outcome::Grant(
        ZoneId(zone),
        train,
        x.ledger.last(),
        last_step(path.steps.as_slice()),
        path.to,
        obstacle,
    ));
    outs.send(
        0,
        Msg::Auth {
            train,
            number: x.ledger.last(),
            mark: x.way.mark(),
            path: path.copy(),
        },
    );
}

/// A request for entry: the train with its facts, and the step at which it would come in.
#[derive(Clone, Copy)]
pub struct Request {
    pub train: TrainId,
    /// In mm.
    pub train_length: u32,
    /// How far a report may be off, in mm.
    pub error: u32,
    /// In mm/s.
    pub speed: u16,
    /// Whether it tells where it is.
    pub equipped: bool,
    pub step: DirSeg,
}

pub fn refused(zone: u8, train: TrainId, refusal: Refusal, outs: &mut Outs)
    requires { outs.old ≡ nothing }
    ensures { outs.new ≡ refuse zone train refusal }
{
    outs.tell(Outcome::NoEntry(ZoneId(zone), train, refusal));
}

/// The path over the whole of a portal's segment.
fn entry_path(step: DirSeg, room: u32) -> Path
    ensures { result ≡ entry_path step room }
{
    let mut steps = ArrayVec::new();
    steps.push(step);
    Path {
        steps,
        from: 0,
        to: room,
    }
}

/// The way over the whole of a portal's segment.
fn way_at_entry(line: &Line, step: DirSeg, room: u32) -> Way
    requires room { room ≡ seg_len line.now step.seg.0 }
    requires some { 0 < room }
    ensures way { result ≡ entry_way step room }
    ensures on_line { OnLine line.now result }
    ensures ends { EndsWithPath (seg_len line.now) result }
{
    let path = entry_path(step, room);
    let Ok(way) = Way::of_path(line, 0, &path) else {
        unreachable!()
    };
    way
}

/// A train as it enters: its front is where its rear has just come in.
pub fn train_at_entry(line: &Line, clock: u64, request: Request, room: u32) -> Controlled
    requires room { room ≡ seg_len line.now request.step.seg.0 }
    requires long { request.train_length ≤ room }
    requires some { 1 ≤ request.train_length }
    ensures next { result ≡ train_at_entry clock request.train room request.train_length request.error request.speed request.equipped request.step }
    ensures fits { TrainFits line.now clock result }
{
    let long = request.train_length;
    Controlled {
        id: request.train,
        train_length: long,
        error: request.error,
        speed: u32::from(request.speed),
        way: way_at_entry(line, request.step, room),
        fronts: Fronts {
            lo: long,
            hi: long,
            at: clock,
        },
        report: clock,
        equipped: request.equipped,
        ledger: Ledger::first(),
    }
}

/// Sends the authority of an entry, with the line that tells it.
pub fn entered(zone: u8, train: TrainId, step: DirSeg, room: u32, outs: &mut Outs)
    requires { outs.old ≡ nothing }
    ensures { outs.new ≡ enter_or_held zone room train step None }
{
    outs.tell(Outcome::Entry(ZoneId(zone), train, 1));
    outs.send(
        0,
        Msg::Auth {
            train,
            number: 1,
            mark: 0,
            path: entry_path(step, room),
        },
    );
}

/// Whether the zone has no room for a further train.
pub fn is_full(trains: &[Controlled]) -> bool
    ensures full { result ≡ full trains.now }
    ensures room { result ≡ false → length trains.now < 256 }
{
    trains.len() >= 256
}

/// Whether no number and no mark of a train is too great.
pub fn fresh_train(x: &Controlled) -> bool
    ensures { result ≡ fresh_train x.now }
{
    fresh_number(x.ledger.last()) && fresh_number(x.ledger.answered()) && fresh_mark(x.way.mark())
}

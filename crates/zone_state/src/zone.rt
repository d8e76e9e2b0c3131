//! The zone, as the world's messages drive it.
ghost use Rattle.std.specs.Prelude.{◌≡◌, ◌≤◌, ◌&&◌, true, IfOk};
ghost use Rattle.std.specs.List.{list_all};
ghost use Rattle.track_points.specs.Points.{Point};
ghost use Rattle.track_points.specs.Sets.{set_has};
ghost use Rattle.definitions.specs.Track.{layout};
ghost use Rattle.definitions.specs.Control.{message_time};
ghost use Rattle.definitions.specs.Steps.{nothing};
ghost use Rattle.plain_state.specs.Plain.{zone_start};
ghost use Rattle.plain_state.specs.Zone.{find_controlled, hold_has, closed_at, zone_acts_on, zone_answer, zone_gives, trains_acted_on, closed_acted_on, concerns, fresh_train, fresh_message, zone_take_effect, zone_take_next};
ghost use Rattle.zone_trains.specs.Trains.{entry_declared};
ghost use Rattle.zone_state.specs.Zone.{ZoneFits, IsZoneOn, IsEnvelope, InRange};

use line_map::Line;
use msg_codec::{Msg, Outs};
use plain_state::Controlled;
use std::alloc::{AllocError, Global};
use std::marker::Model;
use track_points::{PointSet, SegId, TrainId, ZoneId};
use zone_reach::ClosedSegments;
use zone_trains::messages::{concerns, fresh_message, message_time};
use zone_trains::report::PositionReport;
use zone_trains::trains::Request;

/// How many trains a zone has room for.
const ROOM: usize = 256;

/// A zone: its number, the greatest time in any message that it took, the trains that it controls, by ascending id, beside
/// each of them the points that it holds for it, and which segments are closed. Its memory is reserved when it is made.
#[derive(Drop)]
pub struct Zone {
    pub(crate) id: u8,
    pub(crate) clock: u64,
    pub(crate) trains: Vec<Controlled>,
    pub(crate) holds: Vec<PointSet>,
    /// Whether no number and no mark of a train is too great.
    pub(crate) fresh: bool,
    pub(crate) closed: ClosedSegments,
}

impl Model for Zone {
    ghost use Rattle.std.specs.Prelude.{◌≤◌, vec_capacity};
    ghost use Rattle.zone_state.specs.Zone.{ZoneKept, AreKept};

    ghost Value = { ZoneKept };

    ghost view = { λ z. record { plain = record { id = z.id; clock = z.clock; trains = z.trains.items; closed = z.closed }; holds = z.holds.items } };

    ghost invariant = { λ z. (256 ≤ vec_capacity z.trains) × ((256 ≤ vec_capacity z.holds) × AreKept z.trains.items z.holds.items z.fresh) };
}

impl Zone {
    /// A zone that controls no train, with no segment closed.
    pub fn start(alloc: Global, line: &Line, z: ZoneId) -> Result<Zone, AllocError>
        ensures starts { IfOk result (λ zone. zone.plain ≡ zone_start z.0) }
        ensures fits { IfOk result (λ zone. IsZoneOn line.now zone) }
    {
        Ok(Zone {
            id: z.0,
            clock: 0,
            trains: Vec::with_capacity(alloc, ROOM)?,
            holds: Vec::with_capacity(alloc, ROOM)?,
            fresh: true,
            closed: ClosedSegments::new(alloc)?,
        })
    }

    /// Its number.
    pub fn id(&self) -> u8
        ensures { result ≡ self.now.plain.id }
    {
        self.id
    }

    /// Its Now: the greatest time in any message that it took.
    pub fn now(&self) -> u64
        ensures { result ≡ self.now.plain.clock }
    {
        self.clock
    }

    /// Whether it acts on a message.
    fn acts_on(&self, line: &Line, message: &Msg, from: u8) -> bool
        ensures acts_on { result ≡ zone_acts_on line.now self.now.plain from message.now }
        ensures declared { result ≡ true → entry_declared line.now message.now ≡ true }
        ensures fresh { result ≡ true → list_all fresh_train self.now.plain.trains ≡ true }
    {
        from == 0 && concerns(line, self.id, message) && fresh_message(message) && self.fresh
    }

    /// A message acts, which the zone acts on.
    fn act(&mut self, line: &Line, message: &Msg, outs: &mut Outs)
        requires declared { entry_declared line.now message.now ≡ true }
        requires range { InRange message.now }
        requires later { message_time message.now ≤ self.old.plain.clock }
        requires fresh { list_all fresh_train self.old.plain.trains ≡ true }
        requires empty { outs.old ≡ nothing }
        requires fits { ZoneFits line.now self.old }
        ensures gives { outs.new ≡ zone_answer line.now self.old.plain.id self.old.plain.clock self.old.plain.trains self.old.plain.closed message.now }
        ensures next { self.new.plain ≡ record self.old.plain { trains = trains_acted_on line.now self.old.plain.id self.old.plain.clock self.old.plain.trains self.old.plain.closed message.now; closed = closed_acted_on message.now self.old.plain.closed } }
        ensures fits { ZoneFits line.now self.new }
    {
        match message {
            Msg::EntryAsk {
                train,
                length,
                error,
                speed,
                equipped,
                step,
                ..
            } => {
                let request = Request {
                    train: *train,
                    train_length: *length,
                    error: *error,
                    speed: *speed,
                    equipped: *equipped,
                    step: *step,
                };
                self.enter(line, request, outs)
            }
            Msg::Ask {
                train,
                steps,
                to,
                ..
            } => self.ask(line, *train, steps.as_slice(), *to, outs),
            Msg::Report {
                train,
                time,
                mark,
                offset,
                integrity,
            } => {
                let said = PositionReport {
                    time: *time,
                    mark: *mark,
                    offset: *offset,
                    integrity: *integrity,
                };
                self.report(line, *train, said, outs)
            }
            Msg::Time { train, .. } => self.send_again(line, *train, outs),
            Msg::Answer {
                train,
                number,
                taken,
                ..
            } => self.answer(line, *train, *number, *taken),
            Msg::Order { order, .. } => self.order(line, *order, outs),
            _ => {}
        }
    }

    /// Now rises, and the fronts of all trains grow; then a message acts, where the zone acts on it.
    fn take(&mut self, line: &Line, message: &Msg, from: u8, outs: &mut Outs)
        requires empty { outs.old ≡ nothing }
        requires fits { ZoneFits line.now self.old }
        requires range { InRange message.now }
        ensures gives { outs.new ≡ zone_gives line.now self.old.plain from message.now }
        ensures next { self.new.plain ≡ zone_take_next line.now self.old.plain from message.now }
        ensures fits { ZoneFits line.now self.new }
    {
        let acted_on = self.acts_on(line, message, from);
        self.pass(message_time(message));
        if acted_on {
            self.act(line, message, outs);
        }
    }

    /// The zone takes a message. It takes no memory. First Now rises, and the fronts of all trains grow; then the message
    /// acts, where the zone acts on it; last come the alarms.
    pub fn step(&mut self, line: &Line, message: &Msg, from: u8, outs: &mut Outs)
        requires empty { outs.old ≡ nothing }
        requires fits { IsZoneOn line.now self.old }
        requires range { InRange message.now }
        ensures gives { outs.new ≡ zone_take_effect line.now self.old.plain from message.now }
        ensures next { self.new.plain ≡ zone_take_next line.now self.old.plain from message.now }
        ensures fits { IsZoneOn line.now self.new }
    {
        let before = self.clock;
        self.take(line, message, from, outs);
        self.tell_alarms(line, before, outs);
    }

    /// The points that it holds for a train; none where it does not control the train.
    pub fn held(&self, train: TrainId) -> PointSet
        ensures { (line : Line) → IsZoneOn line self.now → (point : Point) → set_has result point ≡ hold_has line self.now.plain.id (find_controlled train.0 self.now.plain.trains) point }
    {
        match self.index_of(train) {
            None => PointSet::empty(),
            Some(i) => self.holds[i].copy(),
        }
    }

    /// Whether a segment is closed.
    pub fn is_closed(&self, seg: SegId) -> bool
        ensures { result ≡ closed_at self.now.plain.closed seg.0 }
    {
        self.closed.has(seg)
    }

    /// The points that a train may have: those of its way from its least rear to its greatest front.
    pub fn envelope(&self, line: &Line, train: TrainId) -> Option<PointSet>
        requires { IsZoneOn line.now self.now }
        ensures { IsEnvelope (layout line.now) (find_controlled train.0 self.now.plain.trains) result }
    {
        match self.index_of(train) {
            None => None,
            Some(i) => {
                let x = &self.trains[i];
                Some(
                    x.way
                        .points(line, x.fronts.rear(x.train_length), x.fronts.hi),
                )
            }
        }
    }
}

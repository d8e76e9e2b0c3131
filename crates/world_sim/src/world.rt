//! The world, by its clock and its trains.
ghost use Rattle.std.specs.Prelude.{◌≡◌, ◌+◌, ◌++◌, ◌∷◌, ◌<◌, ◌≤◌, [], true, length, Some, IfOk, IfSome, is_some, ◌&&◌, not, nat_le, ◌*◌, ◌/◌};
ghost use Rattle.std.specs.List.{list_all, position};
ghost use Rattle.std.specs.Option.{option_copied};
ghost use Rattle.definitions.specs.Track.{zone_of};
ghost use Rattle.definitions.specs.Rules.{is_line};
ghost use Rattle.definitions.specs.Steps.{nothing, answers, entering, requesting, telling, hearing_noise};
ghost use Rattle.definitions.specs.Frames.{frame_at};
ghost use Rattle.definitions.specs.declared.message.Msg.TheVariants as msg;
ghost use Rattle.definitions.specs.Premises.{same_portal};
ghost use Rattle.plain_state.specs.World.{find_train, change_train, with_trains, facts_found, entry_found, sender_found, authorized_found, head_found, on_found, mark_of, new_train, asked_at_portal, come_on, moved_train, trains_moved, auth_fits, world_event_effect, world_event_next, world_take_effect, world_take_next};
ghost use Rattle.plain_state.specs.Plain.{world_start};
ghost use Rattle.plain_state.specs.Admits.{world_reports, world_moves, world_stops, world_enters, hears_noise, world_premise, can_move_found, may_move_found};
ghost use Rattle.world_sim.specs.World.{is_train, ascends, StepFits, IsBuilt, Admits, AllOn, IsWorldOn, answering};
ghost use Rattle.world_sim.specs.Trains.{is_kept};

use crate::places::TrainPlaces;
use crate::trains::{
    ask_entry, come_on, declared, fits_line, is_same_portal, last_speed, move_on, reports,
    take_authority,
};
use arrayvec::ArrayVec;
use braking_table::Table;
use definitions::event::Event;
use definitions::message::{Msg, Order};
use definitions::outcome::{AnswerWord, Outcome};
use line_map::Line;
use msg_codec::{Outs, decode};
use onboard::Verdict;
use plain_state::{Pace, WorldTrain};
use std::alloc::{AllocError, Global};
use std::marker::Model;
use thiserror::Error;
use track_points::path::copy_steps;
use track_points::{DirSeg, Path, TrainId, ZoneId};
use way_path::on_steps::zone_of;

/// The number of the least premise that an event breaks.
#[derive(Clone, Copy, Debug, Error)]
#[error("a premise is broken")]
pub struct Premise(pub u8);

/// Sends an answer to the zone that sent the authority, and tells it.
fn answer(time: u64, train: TrainId, zone: u8, number: u32, taken: bool, outs: &mut Outs)
    requires { outs.old ≡ nothing }
    ensures { outs.new ≡ answers time train zone number taken }
{
    outs.send(
        zone,
        Msg::Answer {
            train,
            time,
            number,
            taken,
        },
    );
    let word = if taken {
        AnswerWord::Taken
    } else {
        AnswerWord::Refused
    };
    outs.tell(Outcome::Answer(train, number, word));
}

/// Sends the request for entry, to the portal's zone.
fn request(time: u64, train: &WorldTrain, id: TrainId, step: DirSeg, zone: u8, outs: &mut Outs)
    requires empty { outs.old ≡ nothing }
    requires kept { is_kept train.now ≡ true }
    ensures { outs.new ≡ requesting time id step zone (facts_found (Some train.now)) }
{
    outs.send(
        zone,
        Msg::EntryAsk {
            train: id,
            time,
            length: train.train_length,
            error: train.error,
            speed: train.speed as u16,
            equipped: true,
            step,
        },
    );
}

/// Sends the ask of a train, to a zone.
fn ask(
    time: u64,
    train: TrainId,
    zone: ZoneId,
    steps: &ArrayVec<DirSeg, 24>,
    to: u32,
    outs: &mut Outs,
)
    requires { outs.old ≡ nothing }
    ensures { outs.new ≡ telling zone.0 (msg.Ask train time steps.now to) }
{
    outs.send(
        zone.0,
        Msg::Ask {
            train,
            time,
            steps: copy_steps(steps),
            to,
        },
    );
}

/// Sends an order to a zone.
fn order(time: u64, zone: u8, order: Order, outs: &mut Outs)
    requires { outs.old ≡ nothing }
    ensures { outs.new ≡ telling zone (msg.Order time order) }
{
    outs.send(zone, Msg::Order { time, order });
}

/// A train answers an authority of a number: by what it decided, or as it was answered last; not at all before it has come
/// on.
fn auth_answer(
    time: u64,
    verdict: Option<Verdict>,
    train: TrainId,
    from: u8,
    number: u32,
    outs: &mut Outs,
)
    requires { outs.old ≡ nothing }
    ensures { outs.new ≡ answering time train from number verdict }
{
    match verdict {
        None => {}
        Some(Verdict::Taken) => answer(time, train, from, number, true, outs),
        Some(Verdict::Refused) => answer(time, train, from, number, false, outs),
        Some(Verdict::Repeat(last, taken)) => answer(time, train, from, last, taken, outs),
    }
}

/// A train that comes on answers its entry authority.
fn answer_entry(time: u64, sender: Option<u8>, train: TrainId, outs: &mut Outs)
    requires { outs.old ≡ nothing }
    ensures { outs.new ≡ entering time train sender }
{
    if let Some(zone) = sender {
        answer(time, train, zone, 1, true, outs);
    }
}

/// Bytes that an actor is handed change nothing; where they are no frame, their first fault is told.
fn hear(to: u8, bytes: &[u8], outs: &mut Outs)
    requires { outs.old ≡ nothing }
    ensures { outs.new ≡ hearing_noise to (frame_at bytes.now) }
{
    if let Err(fault) = decode(bytes) {
        outs.tell(Outcome::Noise(to, fault));
    }
}

/// Whether so many mm are no more than a speed in mm/s gives in so many ms.
fn is_within(speed: u32, ms: u32, mm: u32) -> bool
    ensures { result ≡ nat_le mm (speed * ms / 1000) }
{
    u64::from(mm) <= u64::from(speed) * u64::from(ms) / 1000
}

/// The stops of the line's trains, the clock in ms, the trains of the world, and where each stands among them. Room for
/// 256 trains is reserved when it is made.
#[derive(Drop)]
pub struct World {
    stops: Table,
    clock: u64,
    trains: Vec<WorldTrain>,
    places: TrainPlaces,
}

impl Model for World {
    ghost use Rattle.std.specs.Prelude.{◌≤◌, vec_capacity};
    ghost use Rattle.plain_state.specs.World.{PlainWorld};
    ghost use Rattle.world_sim.specs.World.{AreKept};

    ghost Value = { PlainWorld };

    ghost view = { λ w. record { brake = w.stops; clock = w.clock; trains = w.trains.items } };

    ghost invariant = { λ w. (256 ≤ vec_capacity w.trains) × AreKept w.places w.trains.items };
}

impl World {
    /// A world of no trains, at the time 0.
    pub fn start(alloc: Global, line: &Line) -> Result<World, AllocError>
        ensures { IfOk result (λ w. w ≡ world_start line.now) }
    {
        let Ok(stops) = Table::new(line.brake()) else {
            unreachable!()
        };
        Ok(World {
            stops,
            clock: 0,
            trains: Vec::with_capacity(alloc, 256)?,
            places: TrainPlaces::new(alloc)?,
        })
    }

    /// How many ms have passed.
    pub fn clock(&self) -> u64
        ensures { result ≡ self.now.clock }
    {
        self.clock
    }

    /// How many trains are declared.
    pub fn count(&self) -> usize
        ensures { result ≡ length self.now.trains }
    {
        self.trains.len()
    }

    /// Where the first train of this id stands.
    fn place(&self, train: TrainId) -> Option<usize>
        ensures first { result ≡ position (is_train train.0) self.now.trains }
        ensures within { IfSome result (λ i. i < length self.now.trains) }
    {
        self.places.place(train)
    }

    /// Whether a train of this id is declared.
    pub fn is_declared(&self, train: TrainId) -> bool
        ensures { result ≡ is_some (find_train train.0 self.now.trains) }
    {
        self.place(train).is_some()
    }

    /// The first train of this id, where it stands.
    fn get(&self, train: TrainId) -> Option<&WorldTrain>
        ensures found { option_copied result ≡ find_train train.0 self.now.trains }
        ensures kept { IfSome result (λ x. is_kept x.now ≡ true) }
    {
        match self.place(train) {
            Some(i) => Some(&self.trains[i]),
            None => None,
        }
    }

    /// The first train of this id.
    pub fn find(&self, train: TrainId) -> Option<WorldTrain>
        ensures found { result ≡ find_train train.0 self.now.trains }
        ensures kept { IfSome result (λ x. is_kept x ≡ true) }
    {
        self.get(train).copied()
    }

    /// Whether a report tells the step of the train's head, and an offset that is off by no more than its error.
    fn reports_rightly(&self, event: &Event) -> bool
        ensures { result ≡ world_reports self.now event.now }
    {
        match event {
            Event::Report(train, _, step, offset, _) => match self.get(*train) {
                Some(found) => reports(found.error, found.head, *step, *offset),
                None => false,
            },
            _ => true,
        }
    }

    /// Whether a train can move so many mm in so many ms.
    fn can_move(&self, ms: u32, train: TrainId, mm: u32) -> bool
        ensures { result ≡ can_move_found ms self.now.trains (train, mm) }
    {
        match self.get(train) {
            Some(found) => is_within(found.speed, ms, mm),
            None => is_within(0, ms, mm),
        }
    }

    /// Whether each train can move so far in so many ms.
    fn can_move_all(&self, ms: u32, moves: &[(TrainId, u32)]) -> bool
        ensures { result ≡ list_all (can_move_found ms self.now.trains) moves.now }
    {
        moves.iter().all(|one| self.can_move(ms, one.0, one.1))
    }

    /// Whether no train moves farther than it can.
    fn moves_rightly(&self, event: &Event) -> bool
        ensures { result ≡ world_moves self.now event.now }
    {
        match event {
            Event::Step(ms, moves) => self.can_move_all(*ms, moves.as_slice()),
            _ => true,
        }
    }

    /// Whether a train is on the line, with room to move so many mm.
    fn may_move(&self, train: TrainId, mm: u32) -> bool
        ensures { result ≡ may_move_found self.now.trains (train, mm) }
    {
        match self.get(train) {
            Some(found) => found.head.is_some() && mm <= found.onboard.room(),
            None => false,
        }
    }

    /// Whether each train is on the line, with room to move so far.
    fn may_move_all(&self, moves: &[(TrainId, u32)]) -> bool
        ensures { result ≡ list_all (may_move_found self.now.trains) moves.now }
    {
        moves.iter().all(|one| self.may_move(one.0, one.1))
    }

    /// Whether each train that moves is on the line, and stops within its limit.
    fn stops_rightly(&self, event: &Event) -> bool
        ensures { result ≡ world_stops self.now event.now }
    {
        match event {
            Event::Step(_, moves) => self.may_move_all(moves.as_slice()),
            _ => true,
        }
    }

    /// Whether a train may ask for entry at a step: at its first portal alone.
    fn may_ask_entry(&self, train: TrainId, step: DirSeg) -> bool
        ensures { result ≡ same_portal step (entry_found (find_train train.0 self.now.trains)) }
    {
        match self.get(train) {
            Some(found) => is_same_portal(step, found.entry),
            None => true,
        }
    }

    /// Whether a train may come on: once, and holding its entry authority.
    fn may_come_on(&self, train: TrainId) -> bool
        ensures { result ≡ (authorized_found (find_train train.0 self.now.trains) && not (on_found (find_train train.0 self.now.trains))) }
    {
        match self.get(train) {
            Some(found) => found.onboard.entry().is_some() && found.head.is_none(),
            None => false,
        }
    }

    /// Whether a train that asks for entry, or comes on, may do so.
    fn enters_rightly(&self, event: &Event) -> bool
        ensures { result ≡ world_enters self.now event.now }
    {
        match event {
            Event::Entry(train, step) => self.may_ask_entry(*train, *step),
            Event::Enter(train) => self.may_come_on(*train),
            _ => true,
        }
    }

    /// Whether noise is no frame.
    fn hears_noise(event: &Event) -> bool
        ensures { result ≡ hears_noise event.now }
    {
        match event {
            Event::Noise(_, _, bytes) => decode(bytes.as_slice()).is_err(),
            _ => true,
        }
    }

    /// Whether an event keeps the premises that the world tests; of those that it breaks the least is named. Whether the
    /// message of a take is there is not tested.
    pub fn admits(&self, line: &Line, event: &Event) -> Result<(), Premise>
        ensures { Admits (world_premise self.now event.now) result }
    {
        if !self.reports_rightly(event) {
            return Err(Premise(1));
        }
        if !self.moves_rightly(event) {
            return Err(Premise(2));
        }
        if !self.stops_rightly(event) {
            return Err(Premise(4));
        }
        if !self.enters_rightly(event) {
            return Err(Premise(5));
        }
        if !World::hears_noise(event) {
            return Err(Premise(6));
        }
        Ok(())
    }

    /// Declares a train: its length and its greatest error in mm, its greatest speed in mm/s.
    fn declare(&mut self, train: TrainId, train_length: u32, error: u32, speed: u32)
        requires room { length self.old.trains < 256 }
        requires speed { speed ≤ 60000 }
        ensures { self.new ≡ with_trains self.old (self.old.trains ++ new_train train train_length error speed ∷ []) }
    {
        self.places.put(train, self.trains.len());
        let declared = declared(train, train_length, error, speed);
        let _ = self.trains.push(declared);
    }

    /// The train asks for entry at a step, to this zone.
    fn entry(&mut self, train: TrainId, step: DirSeg, zone: u8, outs: &mut Outs)
        requires { outs.old ≡ nothing }
        ensures gives { outs.new ≡ requesting self.old.clock train step zone (facts_found (find_train train.0 self.old.trains)) }
        ensures next { self.new ≡ with_trains self.old (change_train train.0 (asked_at_portal step) self.old.trains) }
    {
        if let Some(i) = self.place(train) {
            request(self.clock, &self.trains[i], train, step, zone, outs);
            ask_entry(&mut self.trains[i], step);
        }
    }

    /// The train comes on, and answers its entry authority.
    fn enter(&mut self, line: &Line, train: TrainId, outs: &mut Outs)
        requires empty { outs.old ≡ nothing }
        requires each { AllOn line.now self.old.trains }
        requires holds { authorized_found (find_train train.0 self.old.trains) ≡ true }
        requires before { not (on_found (find_train train.0 self.old.trains)) ≡ true }
        ensures gives { outs.new ≡ entering self.old.clock train (sender_found (find_train train.0 self.old.trains)) }
        ensures next { self.new ≡ with_trains self.old (change_train train.0 come_on self.old.trains) }
    {
        if let Some(i) = self.place(train) {
            answer_entry(self.clock, self.trains[i].sender, train, outs);
            come_on(line, &mut self.trains[i]);
        }
    }

    /// A train moves on so many mm, in a step of so many ms, which the clock counts already.
    fn move_on(&mut self, line: &Line, ms: u32, train: TrainId, mm: u32)
        requires valid { is_line line.now ≡ true }
        requires each { AllOn line.now self.old.trains }
        requires can { can_move_found ms self.old.trains (train, mm) ≡ true }
        requires may { may_move_found self.old.trains (train, mm) ≡ true }
        ensures { self.new ≡ with_trains self.old (change_train train.0 (moved_train line.now ms self.old.clock mm) self.old.trains) }
    {
        if let Some(i) = self.place(train) {
            move_on(line, &mut self.trains[i], ms, self.clock, mm);
        }
    }

    /// Trains move on, each so many mm, in a step of so many ms, which the clock counts already.
    #[tactic(auto, unfolding(plain_state::specs::World::trains_moved))]
    fn go(&mut self, line: &Line, ms: u32, moves: &[(TrainId, u32)])
        requires valid { is_line line.now ≡ true }
        requires each { AllOn line.now self.old.trains }
        requires ascend { ascends moves.now ≡ true }
        requires can { list_all (can_move_found ms self.old.trains) moves.now ≡ true }
        requires may { list_all (may_move_found self.old.trains) moves.now ≡ true }
        ensures { self.new ≡ with_trains self.old (trains_moved line.now ms self.old.clock moves.now self.old.trains) }
    {
        for (train, mm) in moves {
            self.move_on(line, ms, *train, *mm);
        }
    }

    /// The train reports to a zone.
    fn report(&self, train: TrainId, zone: ZoneId, offset: i32, whole: bool, outs: &mut Outs)
        requires { outs.old ≡ nothing }
        ensures { outs.new ≡ telling zone.0 (msg.Report train self.now.clock (mark_of (head_found (find_train train.0 self.now.trains))) offset whole) }
    {
        let mark = match self.get(train) {
            Some(found) => match found.head {
                Some(head) => head.mark,
                None => 0,
            },
            None => 0,
        };
        outs.send(
            zone.0,
            Msg::Report {
                train,
                time: self.clock,
                mark,
                offset,
                integrity: whole,
            },
        );
    }

    /// An authority on the line is taken, where the train acts on it.
    fn take_auth(
        &mut self,
        line: &Line,
        from: u8,
        train: TrainId,
        number: u32,
        mark: u32,
        path: &Path,
        outs: &mut Outs,
    )
        requires empty { outs.old ≡ nothing }
        requires fits { auth_fits line.now mark path.now ≡ true }
        ensures gives { outs.new ≡ world_take_effect line.now self.old from (msg.Auth train number mark path.now) }
        ensures next { self.new ≡ world_take_next line.now self.old from (msg.Auth train number mark path.now) }
    {
        if let Some(i) = self.place(train) {
            let found = &mut self.trains[i];
            let stop = self.stops.stop(last_speed(self.clock, found.pace));
            let verdict = take_authority(line, found, from, number, mark, path, stop);
            auth_answer(self.clock, verdict, train, from, number, outs);
        }
    }

    /// The world takes a message of the link from an actor.
    #[tactic(auto, using(crate::proofs::Event_stays::take_stays))]
    pub fn take(&mut self, line: &Line, from: u8, message: &Msg, outs: &mut Outs)
        requires empty { outs.old ≡ nothing }
        requires on { IsWorldOn line.now self.old }
        ensures gives { outs.new ≡ world_take_effect line.now self.old from message.now }
        ensures next { self.new ≡ world_take_next line.now self.old from message.now }
        ensures on { IsWorldOn line.now self.new }
    {
        if let Msg::Auth {
            train,
            number,
            mark,
            path,
        } = message
        {
            if fits_line(line, *mark, path) {
                self.take_auth(line, from, *train, *number, *mark, path, outs);
            }
        }
    }

    /// What an event of the world's own gives, and makes of the world.
    #[tactic(auto, using(crate::proofs::Changed_is::ascends_from))]
    fn own(&mut self, line: &Line, event: &Event, outs: &mut Outs)
        requires empty { outs.old ≡ nothing }
        requires fits { StepFits self.old event.now }
        requires built { IsBuilt event.now }
        requires on { IsWorldOn line.now self.old }
        requires moves { world_moves self.old event.now ≡ true }
        requires stops { world_stops self.old event.now ≡ true }
        requires enters { world_enters self.old event.now ≡ true }
        ensures gives { outs.new ≡ world_event_effect line.now self.old event.now }
        ensures next { self.new ≡ world_event_next line.now self.old event.now }
    {
        match event {
            Event::Train(train, train_length, error, speed, _) => {
                self.declare(*train, *train_length, *error, *speed)
            }
            Event::Entry(train, step) => {
                self.entry(*train, *step, zone_of(line, step.seg), outs)
            }
            Event::Enter(train) => self.enter(line, *train, outs),
            Event::Ask(train, zone, steps, to) => {
                ask(self.clock, *train, *zone, steps, *to, outs)
            }
            Event::Step(ms, moves) => {
                self.clock += u64::from(*ms);
                self.go(line, *ms, moves.as_slice());
            }
            Event::Report(train, zone, _, offset, whole) => {
                self.report(*train, *zone, *offset, *whole, outs)
            }
            Event::Time(zone, train) => outs.send(
                zone.0,
                Msg::Time {
                    time: self.clock,
                    train: *train,
                },
            ),
            Event::Close(seg) => order(self.clock, zone_of(line, *seg), Order::Close(*seg), outs),
            Event::Open(seg) => order(self.clock, zone_of(line, *seg), Order::Open(*seg), outs),
            Event::Shorten(zone, train, step, off) => {
                order(self.clock, zone.0, Order::Short(*train, *step, *off), outs)
            }
            Event::Noise(to, _, bytes) => hear(*to, bytes.as_slice(), outs),
            _ => {}
        }
    }

    /// An event of the world's own.
    #[tactic(auto, using(crate::proofs::Event_stays::event_stays, crate::proofs::Event_stays::moves, crate::proofs::Event_stays::stops, crate::proofs::Event_stays::enters))]
    pub fn step(&mut self, line: &Line, event: &Event, outs: &mut Outs)
        requires empty { outs.old ≡ nothing }
        requires fits { StepFits self.old event.now }
        requires built { IsBuilt event.now }
        requires on { IsWorldOn line.now self.old }
        requires admitted { world_premise self.old event.now ≡ 0 }
        ensures gives { outs.new ≡ world_event_effect line.now self.old event.now }
        ensures next { self.new ≡ world_event_next line.now self.old event.now }
        ensures on { IsWorldOn line.now self.new }
    {
        self.own(line, event, outs);
    }
}

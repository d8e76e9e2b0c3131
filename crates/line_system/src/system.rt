//! The system of a line: the history of its script, and what that leaves.
ghost use Rattle.std.specs.Prelude.{◌≡◌, ◌+◌, ◌-◌, ◌<◌, ◌≤◌, ◌++◌, ◌∷◌, [], true, false, count_by, is_none, is_some, length, nat_lt, nat_le, reverse, vec_len, vec_capacity, slice_get, None, IfOk, IfSome, OnErr, OnOk};
ghost use Rattle.definitions.specs.Rules.{is_line, is_any_zone};
ghost use Rattle.definitions.specs.Premises.{built, too_many, premise_of};
ghost use Rattle.definitions.specs.Track.{is_actor, has_zone};
ghost use Rattle.definitions.specs.Story.{messages, sent};
ghost use Rattle.definitions.specs.Steps.{effects, story_of, is_lost, deliveries};
ghost use Rattle.definitions.specs.Trace.{stands_for, no_room, event_limit, message_limit};
ghost use Rattle.definitions.specs.World.{trains};
ghost use Rattle.definitions.specs.EventFields.{has_train};
ghost use Rattle.definitions.specs.Zones.{zone_id};
ghost use Rattle.plain_state.specs.Plain.{is_link, takes_but};
ghost use Rattle.world_sim.specs.World.{Admits};
ghost use Rattle.std.specs.Option.{option_copied};
ghost use Rattle.line_system.specs.History.{History};
ghost use Rattle.line_state.specs.Frames.{IsFrameAt};
ghost use Rattle.line_state.specs.State.{parts, tally, HasRoom};
ghost use Rattle.line_system.specs.System.{Answered, Answers};
ghost use Rattle.line_system.specs.Shows.{ShowsNotions, ShowsWorld};

use definitions::event::Event;
use definitions::outcome::Outcome;
use definitions::trains::DeclaredTrains;
use line_map::Line;
use line_state::state::{State, is_actor};
use msg_codec::Outs;
use std::alloc::{AllocError, Global};
use std::marker::Model;
use track_points::{TrainId, ZoneId};
use world_sim::{Premise, World};
use zone_state::Zone;

/// The zone of a line of one zone.
fn zone_of_line(line: &Line) -> ZoneId
    requires valid { is_line line.now ≡ true }
    requires one { count_by is_any_zone line.now ≤ 1 }
    ensures { result.0 ≡ zone_id line.now }
{
    let Some(zone) = line.zone(0) else {
        unreachable!()
    };
    zone
}

/// The line and the events so far, with the state that they leave.
#[derive(Drop)]
pub struct System {
    line: Line,
    events: Vec<Event>,
    state: State,
}

impl Model for System {
    ghost use Rattle.std.specs.Prelude.{◌≡◌, reverse};
    ghost use Rattle.line_system.specs.History.{History};
    ghost use Rattle.line_state.specs.State.{parts, tally};
    ghost use Rattle.line_system.specs.Kept.{IsKept};

    ghost Value = { History };

    ghost view = { λ s. record { line = s.line; events = reverse s.events.items } };

    ghost invariant = { λ s. IsKept s.line (reverse s.events.items) (parts s.state) (tally s.state) s.state.zone };
}

/// What the system answers to an event.
#[derive(Clone, Copy)]
pub enum Answer {
    /// It names what is not declared or declares what is, or its form is not built. The script ends.
    Unbuilt,
    /// It declares a train beyond the 256th. The script ends.
    TooMany,
    /// There are as many events as there may be, or so there would be before one of its takes: the system has the takes
    /// before. The script ends.
    Events,
    /// More messages went out than may, or so they would have before one of its takes: the system has the takes before. The
    /// script ends.
    Messages,
    /// It breaks the premise of this number, the least of those that it breaks. The script ends.
    Premise(u8),
    /// It goes. The system has it in its history, a delivery as its takes.
    Goes,
}

/// The most events that a history may have.
const EVENT_LIMIT: usize = 200_000;

/// Where more messages than these went out no further event goes.
const MESSAGE_LIMIT: usize = 998_000;

/// Reserves room for one event more and for the messages of its step. It changes nothing else.
fn make_room(events: &mut Vec<Event>, state: &mut State) -> Result<(), AllocError>
    ensures events { events.new.items ≡ events.old.items }
    ensures parts { parts state.new ≡ parts state.old }
    ensures tally { tally state.new ≡ tally state.old }
    ensures zone { state.new.zone ≡ state.old.zone }
    ensures event { OnOk result (vec_len events.new < vec_capacity events.new) }
    ensures messages { OnOk result (HasRoom state.new) }
{
    events.reserve(1)?;
    state.reserve()
}

/// Puts a copy of an event behind the others, for which there is room. It is made where it is to lie, since it is large.
fn keep(events: &mut Vec<Event>, event: &Event)
    requires { vec_len events.old < vec_capacity events.old }
    ensures { events.new.items ≡ events.old.items ++ event.now ∷ [] }
{
    events.push_reserved(Event::Scan);
    if let Some(place) = events.last_mut() {
        event.copy_into(place);
    }
}

impl System {
    /// A system with no event yet, of a line of at most one zone.
    pub fn start(alloc: Global, line: Line) -> Result<System, AllocError>
        requires valid { is_line line ≡ true }
        requires one { count_by is_any_zone line ≤ 1 }
        ensures { IfOk result (λ s. s ≡ record { line = line; events = [] }) }
    {
        let events = Vec::with_capacity(alloc, 64)?;
        let zone = zone_of_line(&line);
        let state = State::new(alloc, &line, zone)?;
        Ok(System {
            line,
            events,
            state,
        })
    }

    /// Lets the system go. What drops one inline is proved slowly, since it drops each list in it.
    pub fn release(self) {}

    /// Its line.
    pub fn line(&self) -> &Line
        ensures { result.now ≡ self.now.line }
    {
        &self.line
    }

    /// The events of its history, the oldest first.
    pub fn events(&self) -> &[Event]
        ensures { self.now.events ≡ reverse result.now }
    {
        self.events.as_slice()
    }

    /// The world, as its history tells of it.
    pub fn world(&self) -> &World
        ensures { ShowsWorld self.now.line (story_of self.now.line self.now.events) result.now }
    {
        self.state.world()
    }

    /// A zone of its line; none where the line has no zone of this number. What it shows is what the history tells.
    pub fn zone(&self, z: ZoneId) -> Option<&Zone>
        ensures there { is_some result ≡ has_zone self.now.line z.0 }
        ensures shows { IfSome result (λ y. ShowsNotions self.now.line (story_of self.now.line self.now.events) z.0 y.now) }
    {
        if self.line.has_zone(z) {
            Some(self.state.zone())
        } else {
            None
        }
    }

    /// Whether an event names what is declared, and declares what is not, in a form that is built.
    pub fn is_built(&self, event: &Event) -> bool
        ensures { result ≡ built self.now.line (story_of self.now.line self.now.events) event.now }
    {
        self.state.is_built(&self.line, event)
    }

    /// Whether an event declares a train beyond the 256th.
    #[tactic(auto, using(crate::proofs::Go_kept::too_many_plain))]
    pub fn is_too_many(&self, event: &Event) -> bool
        ensures { result ≡ too_many (story_of self.now.line self.now.events) event.now }
    {
        self.state.is_too_many(event)
    }

    /// The number of the least premise that an event breaks, 0 for none.
    fn premise(&self, event: &Event) -> u8
        requires { built self.now.line (story_of self.now.line self.now.events) event.now ≡ true }
        ensures { result ≡ premise_of self.now.line (story_of self.now.line self.now.events) event.now }
    {
        self.state.premise(&self.line, event)
    }

    /// Whether there are as many events as there may be.
    fn is_full(&self) -> bool
        ensures { result ≡ nat_le event_limit (length self.now.events) }
    {
        EVENT_LIMIT <= self.events.len()
    }

    /// Whether more messages went out than may.
    fn is_past_messages(&self) -> bool
        ensures { result ≡ nat_lt message_limit (messages (story_of self.now.line self.now.events)) }
    {
        MESSAGE_LIMIT < self.state.messages()
    }

    /// Whether both limits leave room for a further event.
    #[tactic(auto, using(crate::proofs::All_answers::room_is))]
    pub fn has_room(&self) -> bool
        ensures { result ≡ is_none (no_room self.now.events (story_of self.now.line self.now.events)) }
    {
        !(self.is_full() || self.is_past_messages())
    }

    /// The least premise that an event breaks that is built, if any.
    pub fn admits(&self, event: &Event) -> Result<(), Premise>
        requires { built self.now.line (story_of self.now.line self.now.events) event.now ≡ true }
        ensures { Admits (premise_of self.now.line (story_of self.now.line self.now.events) event.now) result }
    {
        match self.premise(event) {
            0 => Ok(()),
            number => Err(Premise(number)),
        }
    }

    /// Puts an event that is built, within the limits, no delivery, and breaks no premise into the history; `outs` has what it
    /// gives.
    pub fn step(&mut self, event: &Event, outs: &mut Outs) -> Result<(), AllocError>
        requires built { built self.old.line (story_of self.old.line self.old.events) event.now ≡ true }
        requires within { too_many (story_of self.old.line self.old.events) event.now ≡ false }
        requires kept { premise_of self.old.line (story_of self.old.line self.old.events) event.now ≡ 0 }
        requires alone { stands_for self.old.line (story_of self.old.line self.old.events) event.now ≡ event.now ∷ [] }
        requires room { no_room self.old.events (story_of self.old.line self.old.events) ≡ None }
        ensures history { OnOk result (self.new ≡ record { line = self.old.line; events = event.now ∷ self.old.events }) }
        ensures issued { OnOk result (outs.new.issued ≡ (effects self.old.line (story_of self.old.line self.old.events) event.now).issued) }
        ensures lines { OnOk result (outs.new.lines ≡ (effects self.old.line (story_of self.old.line self.old.events) event.now).lines) }
        ensures stays { OnErr result (self.new ≡ self.old) }
        ensures stays_outs { OnErr result (outs.new ≡ outs.old) }
    {
        make_room(&mut self.events, &mut self.state)?;
        outs.clear();
        self.state.step(&self.line, event, outs);
        keep(&mut self.events, event);
        Ok(())
    }

    /// An event that goes and is no delivery. Its outcome lines are added to `lines`; `outs` is room for what it gives.
    fn go(
        &mut self,
        event: &Event,
        outs: &mut Outs,
        lines: &mut Vec<Outcome>,
    ) -> Result<(), AllocError>
        requires built { built self.old.line (story_of self.old.line self.old.events) event.now ≡ true }
        requires within { too_many (story_of self.old.line self.old.events) event.now ≡ false }
        requires kept { premise_of self.old.line (story_of self.old.line self.old.events) event.now ≡ 0 }
        requires alone { stands_for self.old.line (story_of self.old.line self.old.events) event.now ≡ event.now ∷ [] }
        requires room { no_room self.old.events (story_of self.old.line self.old.events) ≡ None }
        ensures history { OnOk result (self.new ≡ record { line = self.old.line; events = event.now ∷ self.old.events }) }
        ensures lines { OnOk result (lines.new.items ≡ lines.old.items ++ (effects self.old.line (story_of self.old.line self.old.events) event.now).lines) }
    {
        self.step(event, outs)?;
        lines.extend_from_slice(outs.lines())?;
        Ok(())
    }

    /// What is due to an actor of the line: its sender, the greatest ordinal that was taken, and how many were sent.
    fn due(&self, to: u8) -> (u8, usize, usize)
        requires { is_actor self.now.line to ≡ true }
        ensures takes { deliveries self.now.line (story_of self.now.line self.now.events) to ≡ takes_but (λ n. is_lost result.0 to n (story_of self.now.line self.now.events)) to result.0 (result.1 + 1) (result.2 - result.1) }
        ensures link { is_link self.now.line to result.0 ≡ true }
        ensures few { result.2 ≤ 200000 }
    {
        self.state.due(to)
    }

    /// Whether a message of a link of the line is named lost, by an ordinal that a link can have.
    fn is_lost(&self, from: u8, to: u8, number: u32) -> bool
        requires link { is_link self.now.line to from ≡ true }
        requires few { number ≤ 200000 }
        ensures { result ≡ is_lost from to number (story_of self.now.line self.now.events) }
    {
        self.state.is_lost(to, number)
    }

    /// How many messages went out on the link from an actor to another.
    pub fn sent(&self, from: u8, to: u8) -> u32
        ensures { result ≡ length (sent from to (story_of self.now.line self.now.events)) }
    {
        self.state.sent(from, to) as u32
    }

    /// The frame of a message of the link from an actor to another, by its ordinal from 1; none where none has it.
    pub fn frame(&self, from: u8, to: u8, number: u32) -> Option<&[u8]>
        ensures { IsFrameAt (sent from to (story_of self.now.line self.now.events)) number (option_copied result) }
    {
        self.state.frame(from, to, number)
    }

    /// The first take of a delivery to an actor, if it has one.
    pub fn waiting(&self, to: u8) -> Option<Event>
        ensures { result ≡ slice_get (deliveries self.now.line (story_of self.now.line self.now.events) to) 0 }
    {
        if !is_actor(&self.line, to) {
            return None;
        }
        let (from, taken, sent) = self.due(to);
        for number in taken..sent {
            let next = number as u32 + 1;
            if !self.is_lost(from, to, next) {
                return Some(Event::Take(to, from, next));
            }
        }
        None
    }

    /// A delivery to an actor of the line: the takes that it stands for, one after the other, as far as there is room.
    fn deliver(
        &mut self,
        to: u8,
        outs: &mut Outs,
        lines: &mut Vec<Outcome>,
    ) -> Result<Answer, AllocError>
        requires { is_actor self.old.line to ≡ true }
        ensures { IfOk result (λ a. Answered self.old (Event.Deliver to) a self.new lines.old.items lines.new.items) }
    {
        let (from, taken, sent) = self.due(to);
        for number in taken..sent {
            let ordinal = number as u32 + 1;
            if !self.is_lost(from, to, ordinal) {
                if self.is_full() {
                    return Ok(Answer::Events);
                }
                if self.is_past_messages() {
                    return Ok(Answer::Messages);
                }
                self.go(&Event::Take(to, from, ordinal), outs, lines)?;
            }
        }
        Ok(Answer::Goes)
    }

    /// An event that is built, within the limit on trains, and no delivery.
    fn go_alone(
        &mut self,
        event: &Event,
        outs: &mut Outs,
        lines: &mut Vec<Outcome>,
    ) -> Result<Answer, AllocError>
        requires built { built self.old.line (story_of self.old.line self.old.events) event.now ≡ true }
        requires within { too_many (story_of self.old.line self.old.events) event.now ≡ false }
        requires alone { stands_for self.old.line (story_of self.old.line self.old.events) event.now ≡ event.now ∷ [] }
        ensures { IfOk result (λ a. Answered self.old event.now a self.new lines.old.items lines.new.items) }
    {
        if self.is_full() {
            return Ok(Answer::Events);
        }
        if self.is_past_messages() {
            return Ok(Answer::Messages);
        }
        let premise = self.premise(event);
        if premise != 0 {
            return Ok(Answer::Premise(premise));
        }
        self.go(event, outs, lines)?;
        Ok(Answer::Goes)
    }

    /// An event that is built and within the limit on trains, a delivery as the takes that it stands for.
    fn go_on(
        &mut self,
        event: &Event,
        outs: &mut Outs,
        lines: &mut Vec<Outcome>,
    ) -> Result<Answer, AllocError>
        requires built { built self.old.line (story_of self.old.line self.old.events) event.now ≡ true }
        requires within { too_many (story_of self.old.line self.old.events) event.now ≡ false }
        ensures { IfOk result (λ a. Answered self.old event.now a self.new lines.old.items lines.new.items) }
    {
        match event {
            Event::Deliver(to) => self.deliver(*to, outs, lines),
            _ => self.go_alone(event, outs, lines),
        }
    }

    /// Answers an event. Its outcome lines are added to `lines`; a refused event adds none, and leaves the system as it was,
    /// but for the takes of a delivery for which there was room. `outs` is room for what one step gives. Where there is no
    /// memory for it, the system is to be given up: a delivery may have made some of its takes.
    pub fn read(
        &mut self,
        event: &Event,
        outs: &mut Outs,
        lines: &mut Vec<Outcome>,
    ) -> Result<Answer, AllocError>
        ensures { IfOk result (λ a. Answers self.old event.now a self.new lines.old.items lines.new.items) }
    {
        if !self.is_built(event) {
            return Ok(Answer::Unbuilt);
        }
        if self.is_too_many(event) {
            return Ok(Answer::TooMany);
        }
        self.go_on(event, outs, lines)
    }
}

impl DeclaredTrains for System {
    ghost known = { λ h. trains (story_of h.line h.events) };

    /// By the world's table, in constant time.
    fn has(&self, train: TrainId) -> bool {
        self.state.is_declared(train)
    }
}

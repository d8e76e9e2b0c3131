//! The state that a script leaves: the world, the zone, and the messages that went out on the links between them.
ghost use Rattle.std.specs.Prelude.{◌≡◌, ◌<◌, ◌≤◌, ◌+◌, ◌++◌, ◌-◌, ◌&&◌, ◌-ℤ◌, pos, [], true, not, max, length, nat_eq, nat_lt, nat_le, is_some, slice_get, Some, IfOk, OnOk};
ghost use Rattle.std.specs.List.{list_all};
ghost use Rattle.std.specs.Int.Signed.{le_z};
ghost use Rattle.std.specs.Option.{option_copied};
ghost use Rattle.definitions.specs.Track.{ranged, is_actor};
ghost use Rattle.definitions.specs.Premises.{on_line, ascending, is_equipped};
ghost use Rattle.definitions.specs.Steps.{nothing};
ghost use Rattle.plain_state.specs.World.{find_train, world_event_effect, world_event_next};
ghost use Rattle.plain_state.specs.Plain.{world_start, zone_start, taken_effect, plain_effect};
ghost use Rattle.plain_state.specs.Admits.{plain_built, plain_too_many, plain_takes, plain_premise, is_known, world_premise};
ghost use Rattle.world_sim.specs.World.{StepFits, IsBuilt, IsWorldOn};
ghost use Rattle.zone_state.specs.Zone.{IsZoneOn, InRange};
ghost use Rattle.line_state.specs.Frames.{AllFit, IsFrameAt};
ghost use Rattle.line_state.specs.State.{plain, parts, link_between, links_of, message_of, world_moved, parts_taken, parts_next, tally, IsStart, taken_with, lost_with, lost_to, tally_behind, counted, on_link, HasRoom, TakenInRange, EventInRange, due_of};

use crate::link::{Link, post};
use crate::losses::Losses;
use definitions::event::{Event, Kind};
use definitions::message::Msg;
use line_map::Line;
use msg_codec::Outs;
use msg_codec::outs::ROOM;
use std::alloc::{AllocError, Global};
use track_points::{DirSeg, TrainId, ZoneId};
use world_sim::{Premise, World};
use zone_state::Zone;

/// Whether a number lies from one to another.
fn is_ranged(least: u32, most: u32, number: u32) -> bool
    ensures { result ≡ ranged least most number }
{
    least <= number && number <= most
}

/// Whether an actor is the world or a zone of the line.
pub fn is_actor(line: &Line, actor: u8) -> bool
    ensures { result ≡ is_actor line.now actor }
{
    actor == 0 || line.has_zone(ZoneId(actor))
}

/// Whether messages go from an actor to another.
fn is_link(line: &Line, to: u8, from: u8) -> bool
    ensures { result ≡ (not (nat_eq to from) && (is_actor line.now to && is_actor line.now from)) }
{
    to != from && (is_actor(line, to) && is_actor(line, from))
}

/// Whether messages that go from an actor to another can be lost.
fn is_loss(line: &Line, from: u8, to: u8) -> bool
    ensures { result ≡ (not (nat_eq to from) && (is_actor line.now from && is_actor line.now to)) }
{
    to != from && (is_actor(line, from) && is_actor(line, to))
}

/// Whether a report may tell this offset.
fn is_offset(offset: i32) -> bool
    ensures { result ≡ (le_z (pos 0 -ℤ pos 1000000) offset && le_z offset (pos 11000000)) }
{
    -1_000_000 <= offset && offset <= 11_000_000
}

fn is_equipped(kind: Kind) -> bool
    ensures { result ≡ is_equipped kind }
{
    match kind {
        Kind::Equipped => true,
        Kind::Unequipped => false,
    }
}

fn is_on_line(line: &Line, step: DirSeg) -> bool
    ensures { result ≡ on_line line.now step }
{
    line.has_segment(step.seg)
}

fn are_on_line(line: &Line, steps: &[DirSeg]) -> bool
    ensures { result ≡ list_all (on_line line.now) steps.now }
{
    steps.iter().all(|step| is_on_line(line, *step))
}

/// The link from an actor to another, by that to the zone and that to the world; none that is not between the two.
fn link<'a>(zone: u8, to_zone: &'a Link, to_world: &'a Link, from: u8, to: u8) -> Option<&'a Link>
    ensures { on_link (option_copied result) ≡ link_between zone to_zone.now.messages to_world.now.messages from to }
{
    if from == 0 {
        if to == zone { Some(to_zone) } else { None }
    } else if from == zone {
        if to == 0 { Some(to_world) } else { None }
    } else {
        None
    }
}

/// Whether trains ascend, the first of them above a number.
fn are_ascending(train: u16, moves: &[(TrainId, u32)]) -> bool
    ensures { result ≡ ascending train moves.now }
{
    let mut last = train;
    for (next, _) in moves {
        if next.0 <= last {
            return false;
        }
        last = next.0;
    }
    true
}

/// What a script leaves.
#[derive(Drop)]
pub struct State {
    world: World,
    zone: Zone,
    to_zone: Link,
    to_world: Link,
    /// The greatest ordinal that the zone took.
    taken_by_zone: u32,
    /// The greatest ordinal that the world took.
    taken_by_world: u32,
    lost_to_zone: Losses,
    lost_to_world: Losses,
    /// How many messages went out.
    messages: usize,
}

impl State {
    /// The state before the first event.
    pub fn new(alloc: Global, line: &Line, zone: ZoneId) -> Result<State, AllocError>
        ensures start { IfOk result (λ s. parts s ≡ record { world = world_start line.now; zone = zone_start zone.0; to_zone = []; to_world = [] }) }
        ensures tally { IfOk result (λ s. IsStart (tally s)) }
        ensures on_line { IfOk result (λ s. IsZoneOn line.now s.zone) }
    {
        Ok(State {
            lost_to_zone: Losses::new(alloc)?,
            lost_to_world: Losses::new(alloc)?,
            zone: Zone::start(alloc, line, zone)?,
            world: World::start(alloc, line)?,
            to_zone: Link::new(alloc),
            to_world: Link::new(alloc),
            taken_by_zone: 0,
            taken_by_world: 0,
            messages: 0,
        })
    }

    /// The world.
    pub fn world(&self) -> &World
        ensures { result.now ≡ self.now.world }
    {
        &self.world
    }

    /// The zone.
    pub fn zone(&self) -> &Zone
        ensures { result.now ≡ self.now.zone }
    {
        &self.zone
    }

    /// Reserves room for the messages of one step. It changes nothing else.
    pub fn reserve(&mut self) -> Result<(), AllocError>
        ensures parts { parts self.new ≡ parts self.old }
        ensures tally { tally self.new ≡ tally self.old }
        ensures zone { self.new.zone ≡ self.old.zone }
        ensures room { OnOk result (HasRoom self.new) }
    {
        self.to_zone.reserve(ROOM)?;
        self.to_world.reserve(ROOM)
    }

    /// The link from an actor to another.
    fn link(&self, from: u8, to: u8) -> Option<&Link>
        ensures { on_link (option_copied result) ≡ links_of (parts self.now) from to }
    {
        link(self.zone.id(), &self.to_zone, &self.to_world, from, to)
    }

    /// How many messages went out on the link from an actor to another.
    pub fn sent(&self, from: u8, to: u8) -> usize
        ensures { result ≡ length (links_of (parts self.now) from to) }
    {
        match self.link(from, to) {
            Some(link) => link.len(),
            None => 0,
        }
    }

    /// A message of the link from an actor to another, by its ordinal from 1.
    fn message(&self, from: u8, to: u8, number: u32) -> Msg
        requires { nat_lt 0 number && nat_le number (length (links_of (parts self.now) from to)) ≡ true }
        ensures { message_of (parts self.now) to from number ≡ Some result }
    {
        let Some(link) = self.link(from, to) else {
            unreachable!()
        };
        link.message(number)
    }

    /// The frame of a message of the link from an actor to another, by its ordinal from 1; none where none has it.
    pub fn frame(&self, from: u8, to: u8, number: u32) -> Option<&[u8]>
        ensures { IsFrameAt (links_of (parts self.now) from to) number (option_copied result) }
    {
        match self.link(from, to) {
            Some(link) => if 0 < number && number as usize <= link.len() {
                Some(link.frame(number))
            } else {
                None
            },
            None => None,
        }
    }

    /// How many messages went out.
    pub fn messages(&self) -> usize
        ensures { result ≡ (tally self.now).messages }
    {
        self.messages
    }

    /// Whether a message of the link to an actor is named lost, by an ordinal that a link can have.
    pub fn is_lost(&self, to: u8, number: u32) -> bool
        requires { number ≤ 200000 }
        ensures { result ≡ lost_to to (tally self.now) number }
    {
        if to == 0 {
            self.lost_to_world.has(number)
        } else {
            self.lost_to_zone.has(number)
        }
    }

    /// A message of the link to an actor is named lost.
    fn lose(&mut self, to: u8, number: u32)
        ensures parts { parts self.new ≡ parts self.old }
        ensures tally { tally self.new ≡ lost_with to number (tally self.old) }
        ensures zone { self.new.zone ≡ self.old.zone }
    {
        if to == 0 {
            self.lost_to_world.mark(number);
        } else {
            self.lost_to_zone.mark(number);
        }
    }

    /// Whether a train is declared.
    pub fn is_declared(&self, train: TrainId) -> bool
        ensures { result ≡ is_some (find_train train.0 (plain self.now).world.trains) }
    {
        self.world.is_declared(train)
    }

    fn are_declared(&self, moves: &[(TrainId, u32)]) -> bool
        ensures { result ≡ list_all (is_known (plain self.now)) moves.now }
    {
        moves.iter().all(|one| self.is_declared(one.0))
    }

    /// Whether an event names what is declared, and declares what is not, in a form that is built.
    pub fn is_built(&self, line: &Line, event: &Event) -> bool
        ensures { result ≡ plain_built line.now (plain self.now) event.now }
    {
        match event {
            Event::Train(train, length, error, speed, kind) => {
                is_ranged(1, 65_535, u32::from(train.0))
                    && (is_ranged(1, 1_000_000, *length)
                        && (*error < *length
                            && (is_ranged(1, 60_000, *speed)
                                && (!self.is_declared(*train) && is_equipped(*kind)))))
            }
            Event::Entry(train, step) => self.is_declared(*train) && line.begins_at_portal(*step),
            Event::Enter(train) => self.is_declared(*train),
            Event::Ask(train, zone, steps, to) => {
                self.is_declared(*train)
                    && (line.has_zone(*zone)
                        && (is_ranged(1, 24, steps.as_slice().len() as u32)
                            && (are_on_line(line, steps.as_slice())
                                && is_ranged(1, 10_000_000, *to))))
            }
            Event::Step(ms, moves) => {
                is_ranged(1, 60_000, *ms)
                    && (are_ascending(0, moves.as_slice()) && self.are_declared(moves.as_slice()))
            }
            Event::Report(train, zone, step, offset, _) => {
                self.is_declared(*train)
                    && (line.has_zone(*zone) && (is_on_line(line, *step) && is_offset(*offset)))
            }
            Event::Time(zone, train) => {
                line.has_zone(*zone) && (train.0 == 0 || self.is_declared(*train))
            }
            Event::Close(seg) | Event::Open(seg) => line.has_segment(*seg),
            Event::Shorten(zone, train, step, off) => {
                line.has_zone(*zone)
                    && (self.is_declared(*train)
                        && (is_on_line(line, *step) && is_ranged(1, 10_000_000, *off)))
            }
            Event::Take(to, from, _) => is_link(line, *to, *from),
            Event::Deliver(to) => is_actor(line, *to),
            Event::Noise(to, from, bytes) => {
                *to != *from
                    && (is_actor(line, *to)
                        && (is_actor(line, *from) && !bytes.as_slice().is_empty()))
            }
            Event::Round(number) => is_ranged(1, 2_000, *number),
            Event::Lost(from, to, _) => is_loss(line, *from, *to),
            _ => false,
        }
    }

    /// Whether an event declares a train beyond the 256th.
    pub fn is_too_many(&self, event: &Event) -> bool
        ensures { result ≡ plain_too_many (plain self.now) event.now }
    {
        match event {
            Event::Train(_, _, _, _, _) => 256 <= self.world.count(),
            _ => false,
        }
    }

    fn takes_rightly(&self, event: &Event) -> bool
        ensures { result ≡ plain_takes (plain self.now) event.now }
    {
        match event {
            Event::Take(to, from, number) => *number > 0
                && *number as usize <= self.sent(*from, *to),
            _ => true,
        }
    }

    /// The number of the least premise that an event breaks, 0 for none.
    pub fn premise(&self, line: &Line, event: &Event) -> u8
        ensures { result ≡ plain_premise (plain self.now) event.now }
    {
        match self.world.admits(line, event) {
            Err(Premise(number)) => number,
            Ok(()) => { if self.takes_rightly(event) { 0 } else { 6 } }
        }
    }

    /// The world takes its own step.
    fn world_steps(&mut self, line: &Line, event: &Event, outs: &mut Outs)
        requires empty { outs.old ≡ nothing }
        requires world_on { IsWorldOn line.now self.old.world }
        requires fits { StepFits self.old.world event.now }
        requires built { IsBuilt event.now }
        requires kept { world_premise self.old.world event.now ≡ 0 }
        requires frames { AllFit (world_event_effect line.now (parts self.old).world event.now).issued }
        requires room { HasRoom self.old }
        ensures gives { outs.new ≡ world_event_effect line.now (parts self.old).world event.now }
        ensures next { parts self.new ≡ world_moved (parts self.old) (world_event_next line.now (parts self.old).world event.now) (world_event_effect line.now (parts self.old).world event.now) }
        ensures same { self.new.zone ≡ self.old.zone }
        ensures tally { tally self.new ≡ tally self.old }
        ensures world_on { IsWorldOn line.now self.new.world }
    {
        self.world.step(line, event, outs);
        post(&mut self.to_zone, self.zone.id(), outs.messages());
    }

    /// The world takes a message of the link from an actor, by its ordinal from 1.
    fn world_takes(&mut self, line: &Line, from: u8, number: u32, outs: &mut Outs)
        requires empty { outs.old ≡ nothing }
        requires world_on { IsWorldOn line.now self.old.world }
        requires there { nat_lt 0 number && nat_le number (length (links_of (parts self.old) from 0)) ≡ true }
        requires frames { AllFit (taken_effect line.now (plain self.old) 0 from (message_of (parts self.old) 0 from number)).issued }
        requires room { HasRoom self.old }
        ensures gives { outs.new ≡ taken_effect line.now (plain self.old) 0 from (message_of (parts self.old) 0 from number) }
        ensures next { parts self.new ≡ parts_taken line.now (parts self.old) 0 from (message_of (parts self.old) 0 from number) }
        ensures same { self.new.zone ≡ self.old.zone }
        ensures tally { tally self.new ≡ record (tally self.old) { by_world = max number self.old.taken_by_world } }
        ensures world_on { IsWorldOn line.now self.new.world }
    {
        let message = self.message(from, 0, number);
        self.world.take(line, from, &message, outs);
        self.taken_by_world = number.max(self.taken_by_world);
        post(&mut self.to_zone, self.zone.id(), outs.messages());
    }

    /// The zone takes a message of the link to it from an actor, by its ordinal from 1.
    fn zone_takes(&mut self, line: &Line, to: u8, from: u8, number: u32, outs: &mut Outs)
        requires empty { outs.old ≡ nothing }
        requires on_line { IsZoneOn line.now self.old.zone }
        requires zone { 0 < to }
        requires range { TakenInRange (message_of (parts self.old) to from number) }
        requires there { nat_lt 0 number && nat_le number (length (links_of (parts self.old) from to)) ≡ true }
        requires frames { AllFit (taken_effect line.now (plain self.old) to from (message_of (parts self.old) to from number)).issued }
        requires room { HasRoom self.old }
        ensures gives { outs.new ≡ taken_effect line.now (plain self.old) to from (message_of (parts self.old) to from number) }
        ensures next { parts self.new ≡ parts_taken line.now (parts self.old) to from (message_of (parts self.old) to from number) }
        ensures on_line { IsZoneOn line.now self.new.zone }
        ensures tally { tally self.new ≡ record (tally self.old) { by_zone = max number self.old.taken_by_zone } }
        ensures same { self.new.world ≡ self.old.world }
    {
        let message = self.message(from, to, number);
        self.zone.step(line, &message, from, outs);
        self.taken_by_zone = number.max(self.taken_by_zone);
        post(&mut self.to_world, 0, outs.messages());
    }

    /// An actor takes a message of the link from another, by its ordinal from 1.
    fn take(&mut self, line: &Line, to: u8, from: u8, number: u32, outs: &mut Outs)
        requires empty { outs.old ≡ nothing }
        requires on_line { IsZoneOn line.now self.old.zone }
        requires world_on { IsWorldOn line.now self.old.world }
        requires range { TakenInRange (message_of (parts self.old) to from number) }
        requires there { nat_lt 0 number && nat_le number (length (links_of (parts self.old) from to)) ≡ true }
        requires frames { AllFit (taken_effect line.now (plain self.old) to from (message_of (parts self.old) to from number)).issued }
        requires room { HasRoom self.old }
        ensures gives { outs.new ≡ taken_effect line.now (plain self.old) to from (message_of (parts self.old) to from number) }
        ensures next { parts self.new ≡ parts_taken line.now (parts self.old) to from (message_of (parts self.old) to from number) }
        ensures tally { tally self.new ≡ taken_with to number (tally self.old) }
        ensures on_line { IsZoneOn line.now self.new.zone }
        ensures world_on { IsWorldOn line.now self.new.world }
    {
        if to == 0 {
            self.world_takes(line, from, number, outs);
        } else {
            self.zone_takes(line, to, from, number, outs);
        }
    }

    /// What an event that is no delivery gives, and what it makes of all but the count of messages.
    fn act(&mut self, line: &Line, event: &Event, outs: &mut Outs)
        requires empty { outs.old ≡ nothing }
        requires on_line { IsZoneOn line.now self.old.zone }
        requires world_on { IsWorldOn line.now self.old.world }
        requires fits { StepFits self.old.world event.now }
        requires built { IsBuilt event.now }
        requires kept { plain_premise (plain self.old) event.now ≡ 0 }
        requires range { EventInRange (plain self.old) event.now }
        requires frames { AllFit (plain_effect line.now (plain self.old) event.now).issued }
        requires room { HasRoom self.old }
        ensures gives { outs.new ≡ plain_effect line.now (plain self.old) event.now }
        ensures next { parts self.new ≡ parts_next line.now (parts self.old) event.now }
        ensures tally { tally self.new ≡ tally_behind event.now (tally self.old) }
        ensures on_line { IsZoneOn line.now self.new.zone }
        ensures world_on { IsWorldOn line.now self.new.world }
    {
        match event {
            Event::Take(to, from, number) => self.take(line, *to, *from, *number, outs),
            Event::Lost(_, to, number) => {
                self.world_steps(line, event, outs);
                self.lose(*to, *number);
            }
            _ => self.world_steps(line, event, outs),
        }
    }

    /// One event more that is no delivery, and what it gives. It takes no memory: the links have room for its messages.
    pub fn step(&mut self, line: &Line, event: &Event, outs: &mut Outs)
        requires empty { outs.old ≡ nothing }
        requires on_line { IsZoneOn line.now self.old.zone }
        requires world_on { IsWorldOn line.now self.old.world }
        requires fits { StepFits self.old.world event.now }
        requires built { IsBuilt event.now }
        requires kept { plain_premise (plain self.old) event.now ≡ 0 }
        requires range { EventInRange (plain self.old) event.now }
        requires frames { AllFit (plain_effect line.now (plain self.old) event.now).issued }
        requires room { HasRoom self.old }
        requires count { self.old.messages ≤ 1000000 }
        ensures gives { outs.new ≡ plain_effect line.now (plain self.old) event.now }
        ensures next { parts self.new ≡ parts_next line.now (parts self.old) event.now }
        ensures tally { tally self.new ≡ counted (length outs.new.issued) (tally_behind event.now (tally self.old)) }
        ensures on_line { IsZoneOn line.now self.new.zone }
        ensures world_on { IsWorldOn line.now self.new.world }
    {
        self.act(line, event, outs);
        self.messages += outs.messages().len();
    }

    /// The sender of the messages to an actor of the line, the greatest ordinal of them that it took, and how many were sent.
    pub fn due(&self, to: u8) -> (u8, usize, usize)
        ensures { result ≡ due_of (parts self.now) (tally self.now) to }
    {
        if to == 0 {
            (
                self.zone.id(),
                self.taken_by_world as usize,
                self.to_world.len(),
            )
        } else {
            (0, self.taken_by_zone as usize, self.to_zone.len())
        }
    }
}

//! A script that is checked: which trains it declares, and how many events it has.
ghost use Rattle.std.specs.Prelude.{◌≡◌, ℕ, List, ◌<◌, ◌+◌, ◌^◌, ◌∷◌, [], length, IfOk};
ghost use Rattle.definitions.specs.EventFields.{has_train};
ghost use Rattle.definitions.specs.Trace.{event_checked, event_limit};
ghost use Rattle.run_engine.specs.Reads.{led};
ghost use Rattle.run_engine.specs.Shown.{check_shown, train_declared};

use crate::reads::Reads;
use definitions::document::Ending;
use definitions::event::Event;
use definitions::trains::DeclaredTrains;
use line_map::Line;
use std::alloc::{AllocError, Global};
use std::marker::Model;
use track_points::TrainId;
use world_sim::places::TrainPlaces;

/// The most trains that a script may declare.
const TRAINS: usize = 256;

/// The most events that a script may have.
const EVENT_LIMIT: u64 = 200_000;

/// The trains that are declared so far, at most 256.
#[derive(Drop)]
pub struct KnownTrains {
    /// Their numbers.
    numbers: Vec<u16>,
    /// Where each stands among them.
    places: TrainPlaces,
}

impl Model for KnownTrains {
    ghost use Rattle.std.specs.Prelude.{ℕ, List, ◌≡◌, ◌≤◌, length, is_some, reverse, vec_capacity};
    ghost use Rattle.definitions.specs.EventFields.{has_train};
    ghost use Rattle.world_sim.specs.Places.{place_of};

    ghost Value = { List ℕ };

    ghost view = { λ k. reverse k.numbers.items };

    ghost invariant = { λ k. ((id : ℕ) → is_some (place_of k.places id) ≡ has_train (reverse k.numbers.items) id) × (length k.numbers.items ≤ 256) × (256 ≤ vec_capacity k.numbers) };
}

impl KnownTrains {
    /// No train is declared.
    pub fn new(alloc: Global) -> Result<KnownTrains, AllocError>
        ensures { IfOk result (λ k. k ≡ []) }
    {
        Ok(KnownTrains {
            numbers: Vec::with_capacity(alloc, TRAINS)?,
            places: TrainPlaces::new(alloc)?,
        })
    }

    /// How many there are.
    fn count(&self) -> usize
        ensures { result ≡ length self.now }
    {
        self.numbers.len()
    }

    /// Declares a train.
    fn add(&mut self, train: TrainId)
        requires { length self.old < 256 }
        ensures { self.new ≡ train.0 ∷ self.old }
    {
        self.places.put(train, self.numbers.len());
        self.numbers.push_reserved(train.0);
    }
}

impl DeclaredTrains for KnownTrains {
    ghost known = { λ k. k };

    fn has(&self, train: TrainId) -> bool {
        self.places.place(train).is_some()
    }
}

/// The train that an event declares.
fn declared(event: &Event) -> Option<TrainId>
    ensures { result ≡ train_declared event.now }
{
    match event {
        Event::Train(train, _, _, _, _) => Some(*train),
        _ => None,
    }
}

/// Where a script stands that is checked.
#[derive(Drop)]
pub struct Check {
    pub line: Line,
    pub trains: KnownTrains,
    pub count: u64,
}

impl Check {
    /// A script of a line, at its begin.
    pub fn start(alloc: Global, line: Line) -> Result<Check, AllocError>
        ensures { IfOk result (λ k. check_shown k ≡ Rattle.definitions.specs.Trace.Checked line [] 0) }
    {
        Ok(Check {
            line,
            trains: KnownTrains::new(alloc)?,
            count: 0,
        })
    }

    /// An event that a text line says.
    pub fn event(&mut self, event: &Event) -> Reads
        requires small { self.old.count + 1 < 2 ^ 64 }
        ensures { (text : List ℕ) → led result (check_shown self.new) [] text ≡ event_checked self.old.line self.old.trains self.old.count text event.now }
    {
        let train = declared(event);
        if train.is_some() && self.trains.count() >= TRAINS {
            return Reads::Ends(Ending::Trains);
        }
        if self.count >= EVENT_LIMIT {
            return Reads::Ends(Ending::Events);
        }
        if let Some(train) = train {
            self.trains.add(train);
        }
        self.count += 1;
        Reads::Again
    }
}

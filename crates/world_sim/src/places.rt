//! Where each train stands in a list, by its id.
ghost use Rattle.std.specs.Prelude.{ℕ, ◌≡◌, ◌<◌, None, Some, IfOk, nat_eq, if◌then◌else◌};
ghost use Rattle.std.specs.Option.{option_or};
ghost use Rattle.world_sim.specs.Places.{place_of};

use std::alloc::{AllocError, Global};
use std::marker::Model;
use track_points::TrainId;

/// How many ids there are.
const IDS: usize = 65_536;

/// The place of each train that has one. Its memory, two bytes for each id, is reserved when it is made.
#[derive(Drop)]
pub struct TrainPlaces {
    /// One more than the place of each id, 0 where it has none.
    slots: Vec<u16>,
}

impl Model for TrainPlaces {
    ghost use Rattle.std.specs.Prelude.{ℕ, List, ◌≡◌, length};

    ghost Value = { List ℕ };

    ghost view = { λ p. p.slots.items };

    ghost invariant = { λ p. length p.slots.items ≡ 65536 };
}

impl TrainPlaces {
    /// No train has a place.
    pub fn new(alloc: Global) -> Result<TrainPlaces, AllocError>
        ensures { IfOk result (λ places. (id : ℕ) → place_of places id ≡ None) }
    {
        Ok(TrainPlaces {
            slots: vec![in alloc; 0u16; IDS]?,
        })
    }

    /// The place of a train.
    pub fn place(&self, train: TrainId) -> Option<usize>
        ensures { result ≡ place_of self.now train.0 }
    {
        match self.slots[train.0 as usize] {
            0 => None,
            next => Some(next as usize - 1),
        }
    }

    /// Gives a train a place; one that has a place keeps it.
    pub fn put(&mut self, train: TrainId, place: usize)
        requires { place < 65535 }
        ensures { (id : ℕ) → place_of self.new id ≡ option_or (place_of self.old id) (if nat_eq train.0 id then Some place else None) }
    {
        let slot = train.0 as usize;
        if self.slots[slot] == 0 {
            self.slots[slot] = place as u16 + 1;
        }
    }
}

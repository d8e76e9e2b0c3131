//! Declared trains as a list.
ghost use Rattle.std.specs.Prelude.{◌≡◌, ℕ, List};
ghost use Rattle.definitions.specs.EventFields.{has_train};
ghost use Rattle.script_text.specs.Trains.{numbers};

use definitions::trains::DeclaredTrains;
use track_points::TrainId;

/// The trains of a list.
#[derive(Clone, Copy)]
pub(crate) struct Listed<'a> {
    pub(crate) trains: &'a [TrainId],
}

/// Whether a train is among those of a list.
#[tactic(auto, unfolding(definitions::specs::EventFields::has_train))]
fn is_among(trains: &[TrainId], train: TrainId) -> bool
    ensures { result ≡ has_train (numbers trains.now) train.0 }
{
    let [first, others @ ..] = trains else {
        return false;
    };
    if first.0 == train.0 {
        true
    } else {
        is_among(others, train)
    }
}

impl DeclaredTrains for Listed<'_> {
    ghost known = { λ l. numbers l.trains.now };

    fn has(&self, train: TrainId) -> bool {
        is_among(self.trains, train)
    }
}

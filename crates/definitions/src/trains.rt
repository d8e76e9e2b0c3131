//! Which trains are declared.
ghost use Rattle.std.specs.Prelude.{◌≡◌, ℕ, List};
ghost use Rattle.definitions.specs.EventFields.{has_train};

use track_points::TrainId;

/// The trains that are declared so far.
pub trait DeclaredTrains {
    /// Their numbers.
    ghost known: { Self → List ℕ };

    /// Whether a train is one of them.
    fn has(&self, train: TrainId) -> bool
        ensures { result ≡ has_train (known self.now) train.0 };
}

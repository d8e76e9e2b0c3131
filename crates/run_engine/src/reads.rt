//! What a text line does to its document.
ghost use Rattle.std.specs.Prelude.{◌≡◌};
ghost use Rattle.run_engine.specs.Reads.{stays};

use definitions::document::{Command, Ending};

/// What a text line does to its document.
#[derive(Clone, Copy)]
pub enum Reads {
    /// The document goes on.
    On,
    /// The document goes on, and the text line is written again.
    Again,
    /// The document ends.
    Ends(Ending),
}

impl Reads {
    /// A text line that says something, under a command.
    pub fn stays(command: Command) -> Reads
        ensures { result ≡ stays command }
    {
        match command {
            Command::Run => Reads::On,
            Command::Check => Reads::Again,
        }
    }
}

//! The room for what one step gives.
ghost use Rattle.std.specs.Prelude.{◌≡◌, ◌<◌, ◌≤◌, ◌++◌, ◌∷◌, [], length, IfOk};
ghost use Rattle.definitions.specs.Steps.{Effect, nothing};

use definitions::message::Msg;
use definitions::outcome::Outcome;
use std::alloc::{AllocError, Global};
use std::marker::Model;

/// How many messages, and how many outcome lines, one step can give.
pub const ROOM: usize = 1_100;

/// What one step gives: the messages in order, each beside the actor to which it goes, and the outcome lines in order.
/// Its memory is reserved when it is made.
#[derive(Drop)]
pub struct Outs {
    messages: Vec<(u8, Msg)>,
    lines: Vec<Outcome>,
}

impl Model for Outs {
    ghost use Rattle.std.specs.Prelude.{◌≤◌, length, vec_capacity};
    ghost use Rattle.definitions.specs.Steps.{Effect};

    ghost Value = { Effect };

    ghost view = { λ o. record { issued = o.messages.items; lines = o.lines.items } };

    ghost invariant = { λ o. (1100 ≤ vec_capacity o.messages) × (1100 ≤ vec_capacity o.lines) × (length o.messages.items ≤ 1100) };
}

impl Outs {
    /// Room for 1,100 messages and 1,100 outcome lines.
    pub fn new(alloc: Global) -> Result<Outs, AllocError>
        ensures { IfOk result (λ o. o ≡ nothing) }
    {
        Ok(Outs {
            messages: Vec::with_capacity(alloc, ROOM)?,
            lines: Vec::with_capacity(alloc, ROOM)?,
        })
    }

    /// Empties both lists, and keeps the room.
    pub fn clear(&mut self)
        ensures { self.new ≡ nothing }
    {
        self.messages.clear();
        self.lines.clear();
    }

    /// Adds a message to an actor: 0 is the world, else a zone.
    pub fn send(&mut self, to: u8, message: Msg)
        requires { length self.old.issued < 1100 }
        ensures { self.new ≡ record { issued = self.old.issued ++ (to, message) ∷ []; lines = self.old.lines } }
    {
        let _ = self.messages.push((to, message));
    }

    /// Adds an outcome line.
    pub fn tell(&mut self, line: Outcome)
        requires { length self.old.lines < 1100 }
        ensures { self.new ≡ record { issued = self.old.issued; lines = self.old.lines ++ line ∷ [] } }
    {
        let _ = self.lines.push(line);
    }

    /// The messages, in order, each beside the actor to which it goes.
    pub fn messages(&self) -> &[(u8, Msg)]
        ensures value { result.now ≡ self.now.issued }
        ensures few { length result.now ≤ 1100 }
    {
        self.messages.as_slice()
    }

    /// The outcome lines, in order.
    pub fn lines(&self) -> &[Outcome]
        ensures { result.now ≡ self.now.lines }
    {
        self.lines.as_slice()
    }
}

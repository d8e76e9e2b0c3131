//! Which messages of a link are named lost.
ghost use Rattle.std.specs.Prelude.{ℕ, ◌≡◌, ◌≤◌, false, length, IfOk};
ghost use Rattle.line_state.specs.Losses.{lost_at, marked};

use std::alloc::{AllocError, Global};
use std::marker::Model;

/// One more than the greatest ordinal that a link can have: each event sends one message at most.
const ORDINALS: usize = 200_001;

/// The ordinals of a link whose messages are named lost, be they sent or not. A greater one than a link can have is never
/// sent, and is not kept. The memory is reserved when it is made.
#[derive(Drop)]
pub struct Losses {
    lost: Vec<bool>,
}

impl Model for Losses {
    ghost use Rattle.std.specs.Prelude.{Bool, List, ◌≡◌, length};

    ghost Value = { List Bool };

    ghost view = { λ l. l.lost.items };

    ghost invariant = { λ l. length l.lost.items ≡ 200001 };
}

impl Losses {
    /// None is lost.
    pub fn new(alloc: Global) -> Result<Losses, AllocError>
        ensures none { IfOk result (λ l. (number : ℕ) → lost_at l number ≡ false) }
        ensures size { IfOk result (λ l. length l ≡ 200001) }
    {
        Ok(Losses {
            lost: vec![in alloc; false; ORDINALS]?,
        })
    }

    /// Whether an ordinal that a link can have is lost.
    pub fn has(&self, number: u32) -> bool
        requires { number ≤ 200000 }
        ensures { result ≡ lost_at self.now number }
    {
        self.lost[number as usize]
    }

    /// An ordinal is lost.
    pub fn mark(&mut self, number: u32)
        ensures { self.new ≡ marked number self.old }
    {
        let place = number as usize;
        if place < self.lost.len() {
            self.lost[place] = true;
        }
    }
}

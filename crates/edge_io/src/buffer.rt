//! A text in memory that grows.
ghost use Rattle.std.specs.Prelude.{◌≡◌, ◌+◌, ◌<◌, ◌≤◌, [], length, IfOk, Some};
ghost use Rattle.edge_io.specs.Streams.{TookWithin, Takes, TookCause};
ghost use Rattle.edge_io.specs.Memory.{TookAll};

use crate::stream::{Sink, Took};
use std::alloc::{AllocError, Global};
use std::marker::Model;

/// A text in memory, as a sink that grows at its end.
///
/// Its room is reserved when it is made. A write fails only where its piece does not fit the room that is left and no
/// memory is left to grow; the text stays as it was.
#[derive(Drop)]
pub struct TextBuffer {
    bytes: Vec<u8>,
    faults: u64,
}

impl Model for TextBuffer {
    ghost use Rattle.std.specs.Prelude.{vec_capacity};
    ghost use Rattle.edge_io.specs.Memory.{InBuffer};

    ghost Value = { InBuffer };

    ghost view = { λ b. record {
      text = b.bytes.items;
      room = vec_capacity b.bytes;
      faults = b.faults;
    } };
}

impl TextBuffer {
    /// An empty text with room for so many bytes.
    pub fn new(alloc: Global, room: usize) -> Result<TextBuffer, AllocError>
        ensures { IfOk result (λ b. b ≡ record { text = []; room = room; faults = 0 }) }
    {
        Ok(TextBuffer {
            bytes: Vec::with_capacity(alloc, room)?,
            faults: 0,
        })
    }

    /// How many bytes the text has.
    pub fn len(&self) -> usize
        ensures { result ≡ length self.now.text }
    {
        self.bytes.len()
    }

    /// The text.
    pub fn as_slice(&self) -> &[u8]
        ensures { result.now ≡ self.now.text }
    {
        self.bytes.as_slice()
    }

    /// Drops the text. The room stays.
    pub fn clear(&mut self)
        ensures { self.new ≡ record { text = []; room = self.old.room; faults = self.old.faults } }
    {
        self.bytes.clear();
    }
}

impl Sink for TextBuffer {
    ghost written = { λ b. Some b.text };

    ghost faults = { λ b. b.faults };

    fn write(&mut self, piece: &[u8]) -> Took
        requires { 0 < length piece.now }
        ensures within { TookWithin result (length piece.now) }
        ensures bytes { Takes result (Some self.old.text) piece.now (Some self.new.text) }
        ensures cause { TookCause result self.old.faults self.new.faults }
        ensures full { result ≡ Took.Failed → self.old.room < length self.old.text + length piece.now }
        ensures all { TookAll result (length piece.now) }
        ensures once { self.new.faults ≤ self.old.faults + 1 }
        ensures grows { self.old.room ≤ self.new.room }
    {
        match self.bytes.extend_from_slice(piece) {
            Ok(()) => Took::Bytes(piece.len()),
            Err(_) => {
                self.faults = self.faults.saturating_add(1);
                Took::Failed
            }
        }
    }
}

//! A link: the messages that went out on it, kept as their frames.
ghost use Rattle.std.specs.Prelude.{◌≡◌, ◌<◌, ◌≤◌, ◌+◌, ◌-◌, ◌++◌, ◌∷◌, ◌&&◌, [], true, length, map, nat_lt, nat_le, slice_get, Some, IfOk, OnOk};
ghost use Rattle.definitions.specs.Frames.{frame_of, Fits};
ghost use Rattle.definitions.specs.Story.{to_actor};
ghost use Rattle.line_state.specs.Frames.{IsFrame, AllFit};

use arrayvec::ArrayVec;
use definitions::message::Msg;
use msg_codec::{decode, encode};
use std::alloc::{AllocError, Global};
use std::marker::Model;

/// The messages that went out on a link, in order, each as its frame.
#[derive(Drop)]
pub struct Link {
    frames: Vec<ArrayVec<u8, 128>>,
}

impl Model for Link {
    ghost use Rattle.std.specs.Prelude.{◌-◌, vec_len, vec_capacity};
    ghost use Rattle.line_state.specs.Frames.{Linked, read_frames, AreFrames};

    ghost Value = { Linked };

    ghost view = { λ l. record { messages = read_frames l.frames.items; room = vec_capacity l.frames - vec_len l.frames } };

    ghost invariant = { λ l. AreFrames l.frames.items };
}

/// The frame of a message that is in its ranges.
fn framed(message: &Msg) -> ArrayVec<u8, 128>
    requires { Fits message.now }
    ensures { result.items ≡ frame_of message.now }
{
    let mut bytes = [0u8; 128];
    let len = encode(message, &mut bytes);
    let mut frame: ArrayVec<u8, 128> = ArrayVec::new();
    let _ = frame.try_extend_from_slice(&bytes[..len]);
    frame
}

/// A frame, by its ordinal from 1.
fn frame_of_ordinal(frames: &[ArrayVec<u8, 128>], number: u32) -> &ArrayVec<u8, 128>
    requires { nat_lt 0 number && nat_le number (length frames.now) ≡ true }
    ensures { slice_get frames.now (number - 1) ≡ Some result.now }
{
    &frames[number as usize - 1]
}

impl Link {
    /// A link on which nothing went out.
    pub fn new(alloc: Global) -> Link
        ensures { result.messages ≡ [] }
    {
        Link {
            frames: Vec::new(alloc),
        }
    }

    /// How many messages went out on it.
    pub fn len(&self) -> usize
        ensures { result ≡ length self.now.messages }
    {
        self.frames.len()
    }

    /// Reserves room for more messages. It changes nothing else.
    pub fn reserve(&mut self, more: usize) -> Result<(), AllocError>
        ensures same { self.new.messages ≡ self.old.messages }
        ensures room { OnOk result (more ≤ self.new.room) }
    {
        self.frames.reserve(more)
    }

    /// Puts a message onto it, which is in its ranges. There is room for it.
    pub fn push(&mut self, message: &Msg)
        requires room { 0 < self.old.room }
        requires fits { Fits message.now }
        ensures messages { self.new.messages ≡ self.old.messages ++ message.now ∷ [] }
        ensures room { self.new.room ≡ self.old.room - 1 }
    {
        let frame = framed(message);
        self.frames.push_reserved(frame);
    }

    /// The frame of a message, by its ordinal from 1.
    pub fn frame(&self, number: u32) -> &[u8]
        requires { nat_lt 0 number && nat_le number (length self.now.messages) ≡ true }
        ensures { slice_get (map frame_of self.now.messages) (number - 1) ≡ Some result.now }
    {
        let frames = self.frames.as_slice();
        frame_of_ordinal(frames, number).as_slice()
    }

    /// A message, by its ordinal from 1.
    pub fn message(&self, number: u32) -> Msg
        requires { nat_lt 0 number && nat_le number (length self.now.messages) ≡ true }
        ensures { slice_get self.now.messages (number - 1) ≡ Some result }
    {
        let frames = self.frames.as_slice();
        let Ok(message) = decode(frame_of_ordinal(frames, number).as_slice()) else {
            unreachable!()
        };
        message
    }
}

/// Puts those of some messages onto the link to an actor that go to it. The link has room for them.
pub fn post(link: &mut Link, actor: u8, messages: &[(u8, Msg)])
    requires room { length messages.now ≤ link.old.room }
    requires fits { AllFit messages.now }
    ensures { link.new.messages ≡ link.old.messages ++ to_actor actor messages.now }
{
    for (receiver, message) in messages {
        if *receiver == actor {
            link.push(message);
        }
    }
}

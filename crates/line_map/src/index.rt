//! The items of a line with an index of them.
ghost use Rattle.std.specs.Prelude.{◌≡◌, [], ◌∷◌, ◌++◌, count_by, IfOk, OnErr, OnOk};
ghost use Rattle.std.specs.List.{list_any};
ghost use Rattle.definitions.specs.Track.{has_segment, brake_of, has_zone, is_any_brake, is_any_silent, seg_len, silent_after, uses, zone_of};
ghost use Rattle.definitions.specs.Rules.{is_any_segment, is_any_zone, rule_of};
ghost use Rattle.line_map.specs.Uses.{use_of};

use crate::ends::{EndUse, is_free};
use crate::notes::Notes;
use braking_table::Brake;
use definitions::item::{End, Item};
use std::alloc::{AllocError, Global};
use std::marker::Model;

/// The items of a line, none of which broke a rule after those before it. Contracts see it as their list.
#[derive(Drop)]
pub struct LineIndex {
    items: Vec<Item>,
    notes: Notes,
}

impl Model for LineIndex {
    ghost use Rattle.std.specs.Prelude.{List};
    ghost use Rattle.definitions.specs.declared.item.Item.{Item};

    ghost Value = { List Item };

    ghost use Rattle.line_map.specs.Notes.{Tells};

    ghost view = { λ l. l.items.items };

    ghost invariant = { λ l. Tells l.notes l.items.items };
}

impl LineIndex {
    /// No items yet, with room in the index for those of a whole line.
    pub fn new(alloc: Global) -> Result<LineIndex, AllocError>
        ensures { IfOk result (λ index. index ≡ []) }
    {
        let notes = Notes::new(alloc)?;
        Ok(LineIndex {
            items: Vec::with_capacity(alloc, 64)?,
            notes,
        })
    }

    /// The same items once more, in memory of their own.
    pub fn copy(&self, alloc: Global) -> Result<LineIndex, AllocError>
        ensures { IfOk result (λ index. index ≡ self.now) }
    {
        let items = Vec::from_slice(alloc, self.items.as_slice())?;
        let notes = self.notes.copy(alloc)?;
        Ok(LineIndex { items, notes })
    }

    /// The items, in their order.
    pub fn items(&self) -> &[Item]
        ensures { result.now ≡ self.now }
    {
        self.items.as_slice()
    }

    /// Adds an item that breaks no rule after the others. Where there is no memory for it, the items stay as they were.
    pub fn add(&mut self, item: &Item) -> Result<(), AllocError>
        requires { rule_of self.old item.now ≡ 0 }
        ensures ok { OnOk result (self.new ≡ self.old ++ item.now ∷ []) }
        ensures err { OnErr result (self.new ≡ self.old) }
    {
        match self.items.push(*item) {
            Ok(()) => {
                self.notes.note(item);
                Ok(())
            }
            Err(_) => Err(AllocError),
        }
    }

    /// Whether the zone is declared.
    pub fn has_zone(&self, z: u64) -> bool
        ensures { result ≡ has_zone self.now z }
    {
        self.notes.has_zone(z)
    }

    /// Whether any zone is declared.
    pub fn has_a_zone(&self) -> bool
        ensures { result ≡ list_any is_any_zone self.now }
    {
        self.notes.has_a_zone()
    }

    /// Whether an item says how trains brake.
    pub fn has_brake(&self) -> bool
        ensures { result ≡ list_any is_any_brake self.now }
    {
        self.notes.has_brake()
    }

    /// How trains brake.
    pub fn brake(&self) -> Brake
        ensures { result ≡ brake_of self.now }
    {
        self.notes.brake()
    }

    /// Whether an item says after how many ms a train is silent.
    pub fn has_silence(&self) -> bool
        ensures { result ≡ list_any is_any_silent self.now }
    {
        self.notes.has_silence()
    }

    /// After how many ms without a used report a train is silent.
    pub fn silent_after(&self) -> u64
        ensures { result ≡ silent_after self.now }
    {
        self.notes.silent_after()
    }

    /// How many segments are declared.
    pub fn segment_count(&self) -> usize
        ensures { result ≡ count_by is_any_segment self.now }
    {
        self.notes.segment_count()
    }

    /// Whether the segment is declared.
    pub fn has_segment(&self, s: u64) -> bool
        ensures { result ≡ has_segment self.now s }
    {
        self.notes.has_segment(s)
    }

    /// The length of a segment in mm, 0 where it is not declared.
    pub fn length_of(&self, s: u64) -> u64
        ensures { result ≡ seg_len self.now s }
    {
        self.notes.length_of(s)
    }

    /// The zone of a segment, 0 where it is not declared.
    pub fn zone_of(&self, s: u64) -> u64
        ensures { result ≡ zone_of self.now s }
    {
        self.notes.zone_of(s)
    }

    /// How the first item that uses an end does.
    pub fn use_of(&self, e: End) -> EndUse
        ensures { result ≡ use_of self.now e }
    {
        self.notes.use_of(e)
    }

    /// Whether an item uses the end.
    #[tactic(auto, using(crate::proofs::Used_in::used_is))]
    pub fn is_used(&self, e: End) -> bool
        ensures { result ≡ list_any (uses e) self.now }
    {
        !is_free(self.use_of(e))
    }
}

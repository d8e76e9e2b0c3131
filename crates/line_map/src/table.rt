//! Segments by their ids.
ghost use Rattle.std.specs.Prelude.{◌≡◌, ◌+◌, ◌<◌, ℕ, length, slice_index_or, nat_eq, if◌then◌else◌, None, Some, IfOk, IsSome};
ghost use Rattle.line_map.specs.Table.{IsTable, Puts, at_slot, IsFresh, look, slot_of, used_at, with_use, end_of};

use crate::ends::{EndUse, first_use};
use definitions::item::End;
use std::alloc::{AllocError, Global};
use track_points::Dir;

/// How many segments there is room for.
const SEGMENTS: usize = 512;

/// How many ids there are, and the 0 that is none.
const IDS: usize = 32768;

/// What is known of a declared segment: its zone, its length in mm, and what uses its two ends.
#[derive(Clone, Copy)]
pub struct Entry {
    pub zone: u64,
    pub len: u64,
    pub up: EndUse,
    pub down: EndUse,
}

/// The entries of the declared segments, and for each id one more than the number of its entry, 0 where it has none.
#[derive(Drop)]
pub struct Table {
    slots: Vec<u16>,
    entries: Vec<Entry>,
}

/// What uses the end at which a train leaves the segment in a direction.
pub fn end_of(entry: &Entry, dir: Dir) -> EndUse
    ensures { result ≡ end_of entry.now dir }
{
    match dir {
        Dir::Up => entry.up,
        Dir::Down => entry.down,
    }
}

/// The entry with one more use of an end; the first one stays.
fn with_use(entry: &Entry, dir: Dir, used: EndUse) -> Entry
    ensures { result ≡ with_use dir used entry.now }
{
    match dir {
        Dir::Up => Entry {
            up: first_use(entry.up, used),
            ..*entry
        },
        Dir::Down => Entry {
            down: first_use(entry.down, used),
            ..*entry
        },
    }
}

impl Table {
    /// A table without entries, with room for those of all segments.
    pub fn new(alloc: Global) -> Result<Table, AllocError>
        ensures { IfOk result IsFresh }
    {
        let slots = vec![in alloc; 0u16; IDS]?;
        let entries = Vec::with_capacity(alloc, SEGMENTS)?;
        Ok(Table { slots, entries })
    }

    /// The same table once more, in memory of its own.
    pub fn copy(&self, alloc: Global) -> Result<Table, AllocError>
        requires { IsTable self.now }
        ensures table { IfOk result IsTable }
        ensures slots { IfOk result (λ t. t.slots.items ≡ self.now.slots.items) }
        ensures entries { IfOk result (λ t. t.entries.items ≡ self.now.entries.items) }
    {
        let slots = Vec::from_slice(alloc, self.slots.as_slice())?;
        let mut entries = Vec::with_capacity(alloc, SEGMENTS)?;
        entries.extend_from_slice(self.entries.as_slice())?;
        Ok(Table { slots, entries })
    }

    /// How many entries there are.
    pub fn len(&self) -> usize
        ensures { result ≡ length self.now.entries.items }
    {
        self.entries.len()
    }

    fn slot(&self, id: u64) -> usize
        ensures { result ≡ slot_of self.now id }
    {
        let slots = self.slots.as_slice();
        if id < slots.len() as u64 {
            slots[id as usize] as usize
        } else {
            0
        }
    }

    /// The entry of an id, where it has one.
    pub fn get(&self, id: u64) -> Option<Entry>
        ensures { result ≡ look self.now id }
    {
        let slot = self.slot(id);
        let entries = self.entries.as_slice();
        if slot != 0 && slot - 1 < entries.len() {
            Some(entries[slot - 1])
        } else {
            None
        }
    }

    /// Gives an id its entry. It takes no memory.
    pub fn insert(&mut self, id: u64, entry: Entry)
        requires table { IsTable self.old }
        requires id { id < 32768 }
        requires none { look self.old id ≡ None }
        requires room { length self.old.entries.items < 512 }
        ensures puts { Puts self.old id entry self.new }
        ensures count { length self.new.entries.items ≡ length self.old.entries.items + 1 }
    {
        self.entries.push_reserved(entry);
        self.slots[id as usize] = self.entries.len() as u16;
    }

    /// Gives an id that has an entry another one.
    fn put(&mut self, id: u64, entry: Entry)
        requires table { IsTable self.old }
        requires some { IsSome (look self.old id) }
        ensures puts { Puts self.old id entry self.new }
        ensures count { length self.new.entries.items ≡ length self.old.entries.items }
    {
        let slot = self.slot(id);
        self.entries[slot - 1] = entry;
    }

    /// Notes what uses an end of a segment that has an entry; the first use stays.
    pub fn use_end(&mut self, e: End, used: EndUse)
        requires { IsTable self.old }
        ensures table { IsTable self.new }
        ensures count { length self.new.entries.items ≡ length self.old.entries.items }
        ensures ends { (s : ℕ) → look self.new s ≡ used_at e used s (look self.old s) }
    {
        if let Some(entry) = self.get(e.segment) {
            self.put(e.segment, with_use(&entry, e.dir, used));
        }
    }
}

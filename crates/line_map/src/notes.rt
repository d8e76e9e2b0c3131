//! What an index notes of the items, one item at a time.
ghost use Rattle.std.specs.Prelude.{◌≡◌, ◌<◌, [], length, is_some, unwrap_or, IfOk};
ghost use Rattle.line_map.specs.Table.{IsTable, look};
ghost use Rattle.line_map.specs.Notes.{CanNote, Noted, Same, Tells, is_noted, length_from, usual_brake, zone_from, use_from};

use crate::ends::EndUse;
use crate::table::{Entry, Table, end_of};
use braking_table::Brake;
use definitions::item::{End, Item};
use std::alloc::{AllocError, Global};

/// How trains brake where no item says.
const USUAL: Brake = Brake {
    ticks: 50,
    runaway: 0,
    rate: 1_000,
};

/// Which zones are declared, whether any is, how trains brake and after how many ms one is silent where an item says so,
/// and the declared segments.
#[derive(Drop)]
pub struct Notes {
    zones: [bool; 17],
    zoned: bool,
    brake: Option<Brake>,
    silence: Option<u64>,
    table: Table,
}

impl Notes {
    /// The notes of no items.
    pub fn new(alloc: Global) -> Result<Notes, AllocError>
        ensures { IfOk result (λ notes. Tells notes []) }
    {
        let table = Table::new(alloc)?;
        Ok(Notes {
            zones: [false; 17],
            zoned: false,
            brake: None,
            silence: None,
            table,
        })
    }

    /// The same notes once more, in memory of their own.
    pub fn copy(&self, alloc: Global) -> Result<Notes, AllocError>
        requires { IsTable self.now.table }
        ensures { IfOk result (Same self.now) }
    {
        let table = self.table.copy(alloc)?;
        Ok(Notes {
            zones: self.zones,
            zoned: self.zoned,
            brake: self.brake,
            silence: self.silence,
            table,
        })
    }

    /// Whether the zone is declared.
    pub fn has_zone(&self, z: u64) -> bool
        ensures { result ≡ is_noted self.now z }
    {
        z < 17 && self.zones[z as usize]
    }

    /// Whether any zone is declared.
    pub fn has_a_zone(&self) -> bool
        ensures { result ≡ self.now.zoned }
    {
        self.zoned
    }

    /// Whether an item says how trains brake.
    pub fn has_brake(&self) -> bool
        ensures { result ≡ is_some self.now.brake }
    {
        self.brake.is_some()
    }

    /// How trains brake.
    pub fn brake(&self) -> Brake
        ensures { result ≡ unwrap_or self.now.brake usual_brake }
    {
        self.brake.unwrap_or(USUAL)
    }

    /// Whether an item says after how many ms a train is silent.
    pub fn has_silence(&self) -> bool
        ensures { result ≡ is_some self.now.silence }
    {
        self.silence.is_some()
    }

    /// After how many ms without a used report a train is silent.
    pub fn silent_after(&self) -> u64
        ensures { result ≡ unwrap_or self.now.silence 5000 }
    {
        self.silence.unwrap_or(5000)
    }

    /// How many segments are declared.
    pub fn segment_count(&self) -> usize
        ensures { result ≡ length self.now.table.entries.items }
    {
        self.table.len()
    }

    /// Whether the segment is declared.
    pub fn has_segment(&self, s: u64) -> bool
        ensures { result ≡ is_some (look self.now.table s) }
    {
        self.table.get(s).is_some()
    }

    /// The length of a segment in mm, 0 where it is not declared.
    pub fn length_of(&self, s: u64) -> u64
        ensures { result ≡ length_from (look self.now.table s) }
    {
        match self.table.get(s) {
            Some(entry) => entry.len,
            None => 0,
        }
    }

    /// The zone of a segment, 0 where it is not declared.
    pub fn zone_of(&self, s: u64) -> u64
        ensures { result ≡ zone_from (look self.now.table s) }
    {
        match self.table.get(s) {
            Some(entry) => entry.zone,
            None => 0,
        }
    }

    /// What uses an end.
    pub fn use_of(&self, e: End) -> EndUse
        ensures { result ≡ use_from e.dir (look self.now.table e.segment) }
    {
        match self.table.get(e.segment) {
            Some(entry) => end_of(&entry, e.dir),
            None => EndUse::Free,
        }
    }

    fn note_zone(&mut self, z: u64)
        requires table { IsTable self.old.table }
        requires within { z < 17 }
        ensures { Noted self.old (Item.Zone z) self.new }
    {
        self.zones[z as usize] = true;
        self.zoned = true;
    }

    fn note_segment(&mut self, s: u64, zone: u64, len: u64)
        requires table { IsTable self.old.table }
        requires can { CanNote (Item.Segment s zone len) self.old }
        ensures { Noted self.old (Item.Segment s zone len) self.new }
    {
        let entry = Entry {
            zone,
            len,
            up: EndUse::Free,
            down: EndUse::Free,
        };
        self.table.insert(s, entry);
    }

    fn note_joint(&mut self, a: End, b: End)
        requires { IsTable self.old.table }
        ensures { Noted self.old (Item.Joint a b) self.new }
    {
        self.table.use_end(a, EndUse::Joined(b));
        self.table.use_end(b, EndUse::Joined(a));
    }

    fn note_portal(&mut self, e: End)
        requires { IsTable self.old.table }
        ensures { Noted self.old (Item.Portal e) self.new }
    {
        self.table.use_end(e, EndUse::Portal);
    }

    fn note_buffer(&mut self, e: End)
        requires { IsTable self.old.table }
        ensures { Noted self.old (Item.Buffer e) self.new }
    {
        self.table.use_end(e, EndUse::Buffer);
    }

    fn note_brake(&mut self, ticks: u64, runaway: u64, rate: u64)
        requires table { IsTable self.old.table }
        requires can { CanNote (Item.Brake ticks runaway rate) self.old }
        ensures { Noted self.old (Item.Brake ticks runaway rate) self.new }
    {
        if self.brake.is_none() {
            self.brake = Some(Brake {
                ticks: ticks as u16,
                runaway: runaway as u32,
                rate: rate as u32,
            });
        }
    }

    fn note_silence(&mut self, ms: u64)
        requires { IsTable self.old.table }
        ensures { Noted self.old (Item.Silent ms) self.new }
    {
        if self.silence.is_none() {
            self.silence = Some(ms);
        }
    }

    /// Notes one more item. It takes no memory.
    pub fn note(&mut self, item: &Item)
        requires table { IsTable self.old.table }
        requires can { CanNote item.now self.old }
        ensures { Noted self.old item.now self.new }
    {
        match *item {
            Item::Zone(z) => self.note_zone(z),
            Item::Segment(s, zone, len) => self.note_segment(s, zone, len),
            Item::Joint(a, b) => self.note_joint(a, b),
            Item::Portal(e) => self.note_portal(e),
            Item::Buffer(e) => self.note_buffer(e),
            Item::Brake(ticks, runaway, rate) => self.note_brake(ticks, runaway, rate),
            Item::Silent(ms) => self.note_silence(ms),
        }
    }
}

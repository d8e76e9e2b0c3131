//! What a train keeps of its authorities, and how it decides on a further one.
ghost use Rattle.std.specs.Prelude.{◌≡◌, ◌≤◌, ◌<◌, ◌-◌, true, false, None, nat_le, is_some};
ghost use Rattle.track_points.specs.Points.{end_place};
ghost use Rattle.definitions.specs.Track.{seg_len};
ghost use Rattle.braking_table.specs.Brake.{stop_of};
ghost use Rattle.onboard.specs.Decision.{none_held, path_mm, with_entry, mm_or_0, come_on, has_entered, place_on, room_to, takes, decided, verdict, RoomIs};

use braking_table::Table;
use line_map::Line;
use track_points::Path;
use way_path::on_steps::{end_of, total};

/// What a train keeps of its authorities.
#[derive(Clone, Copy)]
pub struct Onboard {
    /// How many mm the path of its entry authority has, once it holds one.
    entry: Option<u32>,
    /// How far it is from its head to the limit that it holds, in mm; 0 before it has come on.
    room: u32,
    /// The last number on which it decided; 0 before it has come on.
    last: u32,
    /// Whether it took the authority of that number.
    taken: bool,
}

/// What a train answers to an authority.
#[derive(Clone, Copy)]
pub enum Verdict {
    /// It takes it: its end is the limit.
    Taken,
    /// It refuses it, and keeps its limit.
    Refused,
    /// It has decided on a number that is no less; its last number, and whether it took that one.
    Repeat(u32, bool),
}

/// How many mm a path has; 0 where it is not in its range.
fn path_mm(line: &Line, path: &Path) -> u32
    ensures { result ≡ path_mm (seg_len line.now) path.now }
{
    match end_of(line, path) {
        Some(end) => end - path.from,
        None => 0,
    }
}

/// How far the end of a path lies ahead of a head; none where the head is not on it.
fn room_on(line: &Line, mark: u32, path: &Path, head_mark: u32, head_off: u32) -> Option<u32>
    ensures { RoomIs (seg_len line.now) mark path.now head_mark head_off result }
{
    let end = end_of(line, path)?;
    let steps = path.steps.as_slice();
    if head_mark < mark || (head_mark - mark) as usize >= steps.len() {
        return None;
    }
    let behind = total(line, &steps[..(head_mark - mark) as usize]);
    let place = u64::from(behind) + u64::from(head_off);
    if u64::from(path.from) <= place && place <= u64::from(end) {
        Some(end - place as u32)
    } else {
        None
    }
}

impl Onboard {
    /// A train without an authority.
    pub fn new() -> Onboard
        ensures { result ≡ none_held }
    {
        Onboard {
            entry: None,
            room: 0,
            last: 0,
            taken: false,
        }
    }

    /// How many mm the path of its entry authority has, once it holds one.
    pub fn entry(&self) -> Option<u32>
        ensures { result ≡ self.now.entry }
    {
        self.entry
    }

    /// Keeps the entry authority, which has the number 1.
    pub fn keep_entry(&mut self, line: &Line, path: &Path)
        requires none { self.old.entry ≡ None }
        ensures { self.new ≡ with_entry (seg_len line.now) path.now self.old }
    {
        self.entry = Some(path_mm(line, path));
    }

    /// A train of a length in mm comes on under its entry authority.
    pub fn enter(&mut self, _line: &Line, length: u32)
        requires holds { is_some self.old.entry ≡ true }
        requires fits { length ≤ mm_or_0 self.old.entry }
        requires before { self.old.last ≡ 0 }
        ensures { self.new ≡ come_on length self.old }
    {
        let Some(mm) = self.entry else { unreachable!() };
        self.room = mm - length;
        self.last = 1;
        self.taken = true;
    }

    /// Decides on a number: one that is not above the last changes nothing.
    fn decide(&mut self, is_taken: bool, number: u32, room: u32) -> Verdict
        ensures answer { result ≡ verdict is_taken number self.old }
        ensures next { self.new ≡ decided is_taken number room self.old }
    {
        if number <= self.last {
            return Verdict::Repeat(self.last, self.taken);
        }
        self.last = number;
        self.taken = is_taken;
        if is_taken {
            self.room = room;
            Verdict::Taken
        } else {
            Verdict::Refused
        }
    }

    /// Decides on an authority of a number, by its mark and its path: the train, with so many steps behind its head and at
    /// this offset, needs so many mm to stop.
    pub fn take_auth(
        &mut self,
        line: &Line,
        number: u32,
        mark: u32,
        path: &Path,
        head_mark: u32,
        head_off: u32,
        stop: u32,
    ) -> Verdict
        requires { 0 < self.old.last }
        ensures answer { result ≡ verdict (takes (seg_len line.now) mark path.now head_mark head_off self.old.room stop) number self.old }
        ensures next { self.new ≡ decided (takes (seg_len line.now) mark path.now head_mark head_off self.old.room stop) number (room_to (seg_len line.now) mark path.now head_mark head_off) self.old }
        ensures rises { result ≡ Verdict.Taken → self.old.last < number }
        ensures ahead { result ≡ Verdict.Taken → place_on (seg_len line.now) mark path.now head_mark head_off ≤ end_place (seg_len line.now) path.now }
    {
        match room_on(line, mark, path, head_mark, head_off) {
            Some(room) => self.decide(self.room <= room || stop <= room, number, room),
            None => self.decide(false, number, 0),
        }
    }

    /// Decides on an authority of a number whose path does not lead through the head's step: the train refuses it.
    pub fn refuse(&mut self, number: u32) -> Verdict
        requires { 0 < self.old.last }
        ensures answer { result ≡ verdict false number self.old }
        ensures next { self.new ≡ decided false number 0 self.old }
    {
        self.decide(false, number, 0)
    }

    /// The head moves on so many mm.
    pub fn moved(&mut self, mm: u32)
        requires entered { has_entered self.old ≡ true }
        requires room { mm ≤ self.old.room }
        ensures { self.new ≡ record self.old { room = self.old.room - mm } }
    {
        self.room -= mm;
    }

    /// How far it is from the head to the limit, in mm.
    pub fn room(&self) -> u32
        requires { has_entered self.now ≡ true }
        ensures { result ≡ self.now.room }
    {
        self.room
    }

    /// Whether a train that goes at this speed, in mm/s, can stop before its limit.
    pub fn permits(&self, t: &Table, speed: u32) -> bool
        requires entered { has_entered self.now ≡ true }
        requires speed { speed ≤ 60000 }
        ensures { result ≡ nat_le (stop_of t.now speed) self.now.room }
    {
        t.stop(speed) <= self.room
    }
}

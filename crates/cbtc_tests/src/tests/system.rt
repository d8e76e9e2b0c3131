//! What a system shows of its zone and its links after a worked script.
ghost use Rattle.std.specs.Prelude.{◌≡◌, IfSome};
ghost use Rattle.track_points.specs.Points.{Point};
ghost use Rattle.track_points.specs.Sets.{set_has};
ghost use Rattle.definitions.specs.Control.{now_of};
ghost use Rattle.definitions.specs.Authority.{held, envelope};
ghost use Rattle.definitions.specs.Steps.{story_of};
ghost use Rattle.run_engine.specs.Shown.{reading_shown, Small};

use definitions::document::Command;
use definitions::event::Event;
use line_system::System;
use run_engine::stage::{Reading, Room, Stage};
use std::alloc::Global;
use std::process::Abort;
use track_points::{PointSet, SegId, TrainId, ZoneId};

/// Four segments in one zone, a portal at each end. Train 7 comes on, is granted a way up to the end of segment 3, and reports
/// 100000 on segment 2, so that its rear is at 38000 there. Train 8 comes on behind it and is granted a way up to that cell.
const SECOND_TRAIN: &str = "zone 1
segment 1 1 100000
segment 2 1 300000
segment 3 1 300000
segment 4 1 100000
portal 1-
joint 1+ 2-
joint 2+ 3-
joint 3+ 4-
portal 4+
script
train 7 60000 2000 20000 eq
entry 7 1+
take 1 0 1
take 0 1 1
enter 7
take 1 0 2
ask 7 1 2+ 3+ 300000
take 1 0 3
deliver 0
step 7000 7 140000
report 7 1 2+ 100000 1
deliver 1
train 8 60000 2000 20000 eq
entry 8 1+
deliver 1
deliver 0
enter 8
deliver 1
ask 8 1 2+ 3+ 300000
deliver 1";

/// Reads text lines, which are short.
fn read(rt: &impl Abort, alloc: Global, reading: &mut Reading, room: &mut Room, texts: &str)
    requires { Small (reading_shown reading.old) }
{
    for text in texts.split('\n') {
        let bytes = text.as_bytes();
        if bytes.len() >= 4096 {
            panic!(rt; "the text line is too long");
        }
        room.lines.clear();
        let Ok(_) = reading.text(alloc, bytes.len() as u64 + 1, bytes, room) else {
            panic!(rt; "want of memory");
        };
    }
}

/// The system after a document's text lines.
fn system_behind(rt: &impl Abort, alloc: Global, texts: &str) -> System {
    let Ok(mut room) = Room::new(alloc) else {
        panic!(rt; "want of memory");
    };
    let Ok(mut reading) = Reading::start(alloc, Command::Run) else {
        panic!(rt; "want of memory");
    };
    read(rt, alloc, &mut reading, &mut room, texts);
    let Reading { stage, .. } = reading;
    let Stage::Script(system, _) = stage else {
        panic!(rt; "the document is over");
    };
    system
}

/// What the system's zone holds for a train, by its history.
fn held(system: &System, z: ZoneId, train: TrainId) -> Option<PointSet>
    ensures { IfSome result (λ set. (point : Point) → set_has set point ≡ held system.now.line z.0 train.0 (story_of system.now.line system.now.events) point) }
{
    match system.zone(z) {
        Some(zone) => Some(zone.held(train)),
        None => None,
    }
}

/// The envelope of a train that the system's zone controls, by its history.
#[tactic(auto, using(crate::proofs::Shown::shown))]
fn envelope(system: &System, z: ZoneId, train: TrainId) -> Option<PointSet>
    ensures { IfSome result (λ set. (point : Point) → set_has set point ≡ envelope system.now.line z.0 train.0 (story_of system.now.line system.now.events) point) }
{
    match system.zone(z) {
        Some(zone) => zone.envelope(system.line(), train),
        None => None,
    }
}

/// The Now of the system's zone, by its history.
fn now_of(system: &System, z: ZoneId) -> Option<u64>
    ensures { IfSome result (λ n. n ≡ now_of z.0 (story_of system.now.line system.now.events)) }
{
    match system.zone(z) {
        Some(zone) => Some(zone.now()),
        None => None,
    }
}

/// Whether the system's zone holds a cell for a train.
fn holds(system: &System, train: u16, seg: u16, mm: u32) -> bool {
    match held(system, ZoneId(1), TrainId(train)) {
        Some(set) => set.has_cell(SegId(seg), mm),
        None => false,
    }
}

/// Whether a cell is in the envelope of a train.
fn covers(system: &System, train: u16, seg: u16, mm: u32) -> bool {
    match envelope(system, ZoneId(1), TrainId(train)) {
        Some(set) => set.has_cell(SegId(seg), mm),
        None => false,
    }
}

/// Whether the zone holds the second segment up to the rear of the first train for the second, and from there on for the first.
fn shows(system: &System) -> bool {
    now_of(system, ZoneId(1)) == Some(7000)
        && now_of(system, ZoneId(2)).is_none()
        && holds(system, 7, 2, 38_000)
        && holds(system, 8, 2, 37_999)
        && !holds(system, 7, 2, 37_999)
        && !holds(system, 8, 2, 38_000)
        && covers(system, 7, 2, 38_000)
        && !covers(system, 7, 2, 37_999)
        && !covers(system, 8, 2, 37_999)
        && envelope(system, ZoneId(1), TrainId(9)).is_none()
}

/// The request for entry of train 7 at segment 1, at the time 0.
const REQUEST: &[u8] = &[
    1, 4, 0, 7, 0, 0, 0, 0, 0, 0, 0, 0, 0, 0, 0xEA, 0x60, 0, 0, 0x07, 0xD0, 0x4E, 0x20, 1, 0, 1,
];

/// Authority 1 of train 7 over segment 1.
const GRANT: &[u8] = &[
    1, 10, 0, 7, 0, 0, 0, 1, 0, 0, 0, 0, 1, 0, 1, 0, 0, 0, 0, 0, 0x01, 0x86, 0xA0,
];

fn is_frame(system: &System, from: u8, to: u8, number: u32, bytes: &[u8]) -> bool {
    match system.frame(from, to, number) {
        Some(frame) => frame == bytes,
        None => false,
    }
}

/// Whether the links have what went out, and the second train's authority alone waits, for the world.
fn has_links(system: &System) -> bool {
    system.sent(0, 1) == 8
        && system.sent(1, 0) == 4
        && system.sent(0, 2) == 0
        && is_frame(system, 0, 1, 1, REQUEST)
        && is_frame(system, 1, 0, 1, GRANT)
        && system.frame(0, 1, 0).is_none()
        && system.frame(0, 1, 9).is_none()
        && system.waiting(1).is_none()
        && matches!(system.waiting(0), Some(Event::Take(0, 1, 4)))
}

#[test]
fn a_system_shows_what_is_held_and_what_waits(rt: HostRuntime) {
    let system = system_behind(&rt, rt.alloc(), SECOND_TRAIN);
    let shown = shows(&system) && has_links(&system);
    system.release();
    assert!(rt; shown);
}

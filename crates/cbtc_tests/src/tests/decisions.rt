//! What a train decides, with verdicts that were worked out by hand.
ghost use Rattle.std.specs.Prelude.{◌≡◌, true};
ghost use Rattle.onboard.specs.Decision.{has_entered};

use crate::rows::numbers;
use crate::tests::line::{line_of, up};
use arrayvec::ArrayVec;
use braking_table::{Brake, Table};
use line_map::Line;
use onboard::Verdict::{Refused, Repeat, Taken};
use onboard::{Onboard, Verdict};
use std::process::Abort;
use track_points::Path;

/// Segment 1 of 100 mm after a portal, segment 2 of 50 mm, and segment 3 of 30 mm.
const LINE: &str = "zone 1
segment 1 1 100
segment 2 1 50
segment 3 1 30
joint 1+ 2-
joint 2+ 3-
portal 1-
buffer 3+";

/// A path on the first segments, so many of the three.
fn path(count: u32, from: u32, to: u32) -> Path {
    let mut steps = ArrayVec::new();
    for seg in 1..=count.min(3) {
        let _ = steps.try_push(up(seg as u16));
    }
    Path { steps, from, to }
}

/// A train of 40 mm comes on over segment 1: its head has 60 mm up to the limit.
fn entered(rt: &impl Abort, line: &Line) -> Onboard
    ensures { has_entered result ≡ true }
{
    let mut train = Onboard::new();
    train.keep_entry(line, &path(1, 0, 100));
    assert!(rt; train.entry() == Some(100));
    train.enter(line, 40);
    train
}

/// The number that the train has refused before, 0 for none. Then an authority, by its number and its mark, how many steps
/// its path has and its two offsets, and how many mm the train needs to stop. It has 5 steps behind its head, and is at the
/// offset 40. Its room from then on, and what it answers. Numbers that are not above the last; numbers above it; limits at the one
/// that it holds, ahead of the head, at the head and before it; marks and offsets at which the head is on the path or not; no path.
const ROWS: &str = "0 0 5 3 0 30 0 60 repeats 1 taken
0 1 5 3 0 30 0 60 repeats 1 taken
4 3 5 3 0 30 0 60 repeats 4 refused
4 4 5 3 0 30 0 60 repeats 4 refused
4 4 9 3 0 30 0 60 repeats 4 refused
0 2 5 3 0 30 0 140 takes
4 5 5 3 0 30 1000 140 takes
0 4294967295 5 2 0 0 0 60 takes
0 2 5 1 0 100 1000 60 takes
0 2 5 1 0 99 1000 60 refuses
0 2 5 1 0 99 59 59 takes
0 2 5 1 0 98 59 60 refuses
0 2 5 1 0 40 0 0 takes
0 2 5 1 0 39 0 60 refuses
0 2 6 3 0 30 0 60 refuses
0 2 2 3 0 30 0 60 refuses
0 2 0 3 0 30 0 60 refuses
0 2 4 3 100 30 0 40 takes
0 2 3 3 0 30 0 60 refuses
0 2 5 3 40 30 0 140 takes
0 2 5 3 41 30 0 60 refuses
0 2 5 0 0 0 0 60 refuses
0 2 5 1 0 101 0 60 refuses
0 2 5 2 101 50 0 60 refuses";

/// Whether a row ends with what a train answers.
fn tells(row: &str, verdict: Verdict) -> bool {
    match verdict {
        Taken => row.ends_with(" takes"),
        Refused => row.ends_with(" refuses"),
        Repeat(1, true) => row.ends_with(" repeats 1 taken"),
        Repeat(4, false) => row.ends_with(" repeats 4 refused"),
        Repeat(_, _) => false,
    }
}

/// Whether a train that has come on decides as the row tells.
fn decides(line: &Line, train: Onboard, row: &str) -> bool
    requires { has_entered train ≡ true }
{
    let [refused, number, mark, count, from, to, stop, room] = *numbers(row).as_slice() else {
        return false;
    };
    let mut next = train;
    let _ = next.refuse(refused);
    let found = next.take_auth(line, number, mark, &path(count, from, to), 5, 40, stop);
    tells(row, found) && next.room() == room
}

/// A train that has come on decides as the rows tell.
fn try_rows(rt: &impl Abort, line: &Line, train: Onboard)
    requires { has_entered train ≡ true }
{
    for row in ROWS.split('\n') {
        assert!(rt; decides(line, train, row), "{row}");
    }
}

/// Whether a train that has come on has this room once it has moved so far, and may then go at 100 mm/s or not.
fn moves(train: Onboard, table: &Table, mm: u32, room: u32, permitted: bool) -> bool
    requires { has_entered train ≡ true }
{
    let mut next = train;
    if mm > next.room() {
        return false;
    }
    next.moved(mm);
    next.room() == room && next.permits(table, 100) == permitted
}

/// How many mm the entry of a path of more than the first segment has.
fn entry_out_of_range(line: &Line) -> Option<u32> {
    let mut train = Onboard::new();
    train.keep_entry(line, &path(1, 0, 101));
    train.entry()
}

/// Whether a train that has come on moves up to its limit, by the stops of a brake.
fn goes_on(train: Onboard) -> bool
    requires { has_entered train ≡ true }
{
    let brake = Brake {
        ticks: 0,
        runaway: 0,
        rate: 1_000,
    };
    match Table::new(brake) {
        Ok(table) => {
            moves(train, &table, 53, 7, true)
                && moves(train, &table, 54, 6, true)
                && moves(train, &table, 55, 5, false)
        }
        Err(_) => false,
    }
}

#[test]
fn a_train_decides_and_moves_up_to_its_limit(rt: HostRuntime) {
    let line = line_of(&rt, LINE);
    let train = entered(&rt, &line);
    try_rows(&rt, &line, train);
    assert!(rt; goes_on(train) && entry_out_of_range(&line) == Some(0));
}

//! A zone on a line of four segments one after the other, the third of them another zone's, by tables of messages in a row.
ghost use Rattle.std.specs.Prelude.{◌≡◌, true};
ghost use Rattle.zone_state.specs.Zone.{IsZoneOn, InRange};

use crate::rows::{numbers, split};
use crate::tests::line::line_of;
use arrayvec::ArrayVec;
use definitions::message::{Msg, Order};
use edge_io::buffer::TextBuffer;
use line_map::Line;
use msg_codec::Outs;
use outcome_text::write_outcome;
use std::alloc::{AllocError, Global};
use std::process::Abort;
use track_points::{Dir, DirSeg, PointSet, SegId, TrainId, ZoneId};
use zone_state::Zone;

/// Segment 1 of 100 mm after a portal, segment 2 of 50 mm, segment 3 of 30 mm, which is of zone 2, and segment 4 of 40 mm.
const LINE: &str = "zone 1
zone 2
segment 1 1 100
segment 2 1 50
segment 3 2 30
segment 4 1 40
joint 1+ 2-
joint 2+ 3-
joint 3+ 4-
portal 1-
buffer 4+";

/// Tables, each behind a `=` and what it is of. A line that begins with a space is a remark, each other one a row: its message,
/// by its kind, its sender, its train, its time and its fields; behind a bar the zone's Now after it, and of an authority that goes
/// the receiver, the number, the mark and the end of the path; and behind another the last outcome line. The last row has the
/// cells that are held for train 7 and those of its envelope, of segment 1 at 0, 39, 40, 94, 95 and 99 mm, of segment 2 at 0
/// and 49 mm and of segment 3 at 0 mm, and which of the segments 1 to 4 are closed.
const TABLES: &str = "= nothing is shown of a train elsewhere
shows .........|         |----
= a train enters
enter 0 7 4 101 100|4|noentry 1 7 toolong
enter 0 7 5 40 100|5 0 1 0 100|entry 1 7 1
enter 0 7 3 40 100|5|noentry 1 7 known
enter 0 8 6 40 100|6|noentry 1 8 held 7
enter 2 9 9 40 100|9|
shows ######...|##.......|----
= an ask is granted
enter 0 7 5 40 100|5 0 1 0 100|entry 1 7 1
ask 0 7 6 50 2|6|deny 1 7 10
answer 0 7 10 1|10|
ask 0 7 8 10 2 3|10 0 2 0 10|grant 1 7 2 3+ 10 1
shows ########.|##.......|----
= reports narrow the fronts
 The fronts are from 40 on. At 200 ms they reach 60, and at 300 ms 10 mm more.
enter 0 7 0 40 100|0 0 1 0 100|entry 1 7 1
time 0 7 200|200 0 1 0 100|
report 0 7 200 0 50|200|place 1 7 1+ 5 1+ 55
report 0 7 100 0 48|200|place 1 7 1+ 5 1+ 55
report 0 7 100 0 38|200|place 1 7 1+ 5 1+ 53
unsure 0 7 300 0 60|300|place 1 7 1+ 5 1+ 63
unsure 0 7 300 0 55|300|place 1 7 1+ 5 1+ 60
report 0 7 300 0 20|300|place 1 7 1+ 5 1+ 60
report 0 7 300 1 20|300|
report 0 8 300 0 50|300|
shows .#####...|.##......|----
= each growth is of whole mm
 At 333 mm/s no front moves on by a whole mm in 1 ms, and by 3 mm in 10 ms.
enter 0 7 0 40 333|0 0 1 0 100|entry 1 7 1
time 2 7 1|1|
time 2 7 2|2|
time 2 7 3|3|
unsure 0 7 3 0 90|3|place 1 7 1+ 0 1+ 40
unsure 0 7 13 0 90|13|place 1 7 1+ 0 1+ 43
shows ######...|###......|----
= a dropped message lets the fronts grow
 A message of another zone is dropped, but raises Now: the fronts grow by 30 mm, and then up to the limit.
enter 0 7 0 40 100|0 0 1 0 100|entry 1 7 1
answer 2 7 300 1|300|
unsure 0 7 300 0 90|300|place 1 7 1+ 0 1+ 70
answer 2 7 1000 1|1000|
unsure 0 7 1000 0 99|1000|place 1 7 1+ 0 1+ 100
shows ######...|######...|----
= a way is cut behind the rear
 At 1000 mm/s. The rear moves to 75 and 95 mm on segment 1.
enter 0 7 0 40 1000|0 0 1 0 100|entry 1 7 1
answer 0 7 0 1|0|
ask 0 7 0 50 2|0 0 2 0 50|grant 1 7 2 2+ 50 1
report 0 7 85 1 20|85|place 1 7 1+ 75 2+ 25
report 0 7 105 1 40|105|place 1 7 1+ 95 2+ 45
shows ....####.|....###..|----
= a step behind the rear is dropped
 The rear moves to the end of segment 1, which another train then enters. Authority 2 is sent again until it is
 answered.
enter 0 7 0 40 1000|0 0 1 0 100|entry 1 7 1
answer 0 7 0 1|0|
ask 0 7 0 50 2|0 0 2 0 50|grant 1 7 2 2+ 50 1
report 0 7 110 1 45|110|place 1 7 2+ 0 2+ 50
report 0 7 110 0 99|110|
report 0 7 110 1 40|110|place 1 7 2+ 0 2+ 45
time 0 7 110|110 0 2 1 50|
enter 0 8 110 40 100|110 0 1 0 100|entry 1 8 1
answer 0 7 110 2|110|
answer 0 7 110 1|110|
time 0 7 110|110|
shows ......##.|......#..|----
= a train behind holds no train up
 Train 7 is from 15 to 25 mm on segment 2, and its way ends at 30 mm. Train 5 comes up behind it, which does not
 hold train 7 up. Then both fall silent in one step.
enter 0 7 0 10 1000|0 0 1 0 100|entry 1 7 1
answer 0 7 0 1|0|
ask 0 7 0 30 2|0 0 2 0 30|grant 1 7 2 2+ 30 1
report 0 7 115 1 30|115|place 1 7 2+ 15 2+ 25
enter 0 5 115 10 100|115 0 1 0 100|entry 1 5 1
answer 0 5 115 1|115|
ask 0 5 115 50 2|115 0 2 0 15|grant 1 5 2 2+ 15 3
ask 0 7 115 50 2|115 0 3 1 50|grant 1 7 3 2+ 50 1
time 2 7 5115|5115|
time 2 7 5116|5116|alarm silent 1 7
shows .......#.|.......#.|----
= a train falls silent
 A train is silent more than 5000 ms after its last report; the entry counts as one.
enter 0 7 10 40 100|10 0 1 0 100|entry 1 7 1
answer 0 7 10 1|10|
time 0 7 5010|5010|
time 0 7 5011|5011|alarm silent 1 7
time 0 7 6000|6000|
ask 0 7 6000 50 2|6000|deny 1 7 11
ask 0 7 6000 30 3|6000|deny 1 7 10
unsure 0 7 700 0 90|6000|place 1 7 1+ 0 1+ 100
ask 0 7 6000 50 2|6000|deny 1 7 11
report 0 7 6000 0 50|6000|place 1 7 1+ 5 1+ 55
ask 0 7 6000 50 2|6000 0 2 0 50|grant 1 7 2 2+ 50 1
answer 0 7 6000 2|6000|
time 0 7 11000|11000|
time 0 7 11001|11001|alarm silent 1 7
shows .#######.|.#######.|----
= a segment is closed
 Train 7 is granted a way up to the closed segment 4, and no further. Segment 2 is closed too, which lies on its
 way and bars nothing beyond it. Train 8 comes up behind, where segment 2 is both closed and held.
enter 0 7 0 40 1000|0 0 1 0 100|entry 1 7 1
answer 0 7 0 1|0|
close 0 0 0 4|0|closed 1 4
ask 0 7 0 40 2 3 4|0 0 2 0 30|grant 1 7 2 3+ 30 7
ask 0 7 0 40 4|0|deny 1 7 7
ask 0 7 0 0 4|0|deny 1 7 1
close 0 0 0 4|0|closed 1 4
close 0 0 0 2|0|closed 1 2
close 0 0 0 3|0|
open 2 0 0 4|0|
ask 0 7 0 40 4|0|deny 1 7 7
open 0 0 0 4|0|opened 1 4
open 0 0 0 4|0|opened 1 4
ask 0 7 0 10 4|0 0 3 0 10|grant 1 7 3 4+ 10 1
report 0 7 110 1 45|110|place 1 7 2+ 0 2+ 50
enter 0 8 110 40 100|110 0 1 0 100|entry 1 8 1
answer 0 8 110 1|110|
ask 0 8 110 50 2|110|deny 1 8 3
shows ......##.|......##.|-x--
= a short order names a place
 A shrink ends not before the greatest front, and before the limit, which is 150 mm. An offset may be beyond its
 step.
short 0 7 0 1 60|0|noshort 1 7 away
enter 0 7 0 40 100|0 0 1 0 100|entry 1 7 1
answer 0 7 0 1|0|
ask 0 7 0 50 2|0 0 2 0 50|grant 1 7 2 2+ 50 1
short 0 7 200 1 59|200|noshort 1 7 place
short 0 7 200 1 150|200|noshort 1 7 place
short 0 7 200 2 50|200|noshort 1 7 place
short 0 7 200 2 4294967295|200|noshort 1 7 place
short 0 7 200 3 0|200|noshort 1 7 place
back 0 7 200 1 60|200|noshort 1 7 place
short 0 8 200 1 60|200|noshort 1 8 away
short 0 7 200 1 60|200 0 3 0 60|short 1 7 3 1+ 60
short 0 7 200 1 80|200|noshort 1 7 pending
ask 0 7 200 50 2|200|deny 1 7 9
answer 0 7 200 2|200|
time 0 7 200|200 0 3 0 60|
shows ########.|###......|----
= an offset may be beyond its step
 110 mm from the start of segment 1 are 10 mm on segment 2.
enter 0 7 0 40 100|0 0 1 0 100|entry 1 7 1
answer 0 7 0 1|0|
ask 0 7 0 50 2|0 0 2 0 50|grant 1 7 2 2+ 50 1
short 0 7 200 1 110|200 0 3 0 10|short 1 7 3 2+ 10
answer 0 7 200 3|200|
shows #######..|###......|----
= a train without equipment has no short order
unequipped 0 7 0 40 100|0 0 1 0 100|entry 1 7 1
answer 0 7 0 1|0|
short 0 7 0 1 60|0|noshort 1 7 unequipped
time 0 7 0|0|
shows ######...|##.......|----
= a taken shrink ends the way
 At once no more is held than the way that is left, and the front does not grow beyond it.
enter 0 7 0 40 100|0 0 1 0 100|entry 1 7 1
answer 0 7 0 1|0|
ask 0 7 0 50 2|0 0 2 0 50|grant 1 7 2 2+ 50 1
short 0 7 200 1 60|200 0 3 0 60|short 1 7 3 1+ 60
answer 0 7 200 3|200|
time 0 7 1000|1000|
shows ###......|###......|----
= a shrink is taken once
 A taken shrink that is answered again does nothing, also once the way is longer.
enter 0 7 0 40 100|0 0 1 0 100|entry 1 7 1
answer 0 7 0 1|0|
ask 0 7 0 50 2|0 0 2 0 50|grant 1 7 2 2+ 50 1
short 0 7 200 1 60|200 0 3 0 60|short 1 7 3 1+ 60
answer 0 7 200 3|200|
answer 0 7 200 3|200|
ask 0 7 200 10 2 3|200 0 4 0 10|grant 1 7 4 3+ 10 1
answer 0 7 200 3|200|
refusal 0 7 200 3|200|
time 0 7 200|200 0 4 0 10|
shows ########.|###......|----
= a refused shrink leaves the way
enter 0 7 0 40 100|0 0 1 0 100|entry 1 7 1
answer 0 7 0 1|0|
ask 0 7 0 50 2|0 0 2 0 50|grant 1 7 2 2+ 50 1
short 0 7 200 1 60|200 0 3 0 60|short 1 7 3 1+ 60
refusal 0 7 200 3|200|
time 0 7 200|200|
answer 0 7 200 3|200|
ask 0 7 200 10 2 3|200 0 4 0 10|grant 1 7 4 3+ 10 1
time 0 7 200|200 0 4 0 10|
shows ########.|###......|----
= a shrink that is passed is refused
 The shrink ends at 60 mm. It waits while the least front is there, and counts as refused once that is at 61 mm.
enter 0 7 0 40 100|0 0 1 0 100|entry 1 7 1
answer 0 7 0 1|0|
ask 0 7 0 50 2|0 0 2 0 50|grant 1 7 2 2+ 50 1
short 0 7 200 1 60|200 0 3 0 60|short 1 7 3 1+ 60
report 0 7 400 0 65|400|place 1 7 1+ 20 1+ 70
time 0 7 400|400 0 3 0 60|
report 0 7 600 0 66|600|place 1 7 1+ 21 1+ 71
time 0 7 600|600|
answer 0 7 600 3|600|
ask 0 7 600 10 2 3|600 0 4 0 10|grant 1 7 4 3+ 10 1
shows .#######.|.##......|----
= a shrink waits while the way is cut
 A shrink to 40 mm on segment 2 waits while the rear leaves segment 1.
enter 0 7 0 10 1000|0 0 1 0 100|entry 1 7 1
answer 0 7 0 1|0|
ask 0 7 0 50 2|0 0 2 0 50|grant 1 7 2 2+ 50 1
short 0 7 105 2 40|105 0 3 0 40|short 1 7 3 2+ 40
report 0 7 115 1 20|115|place 1 7 2+ 5 2+ 25
time 0 7 115|115 0 3 1 40|
answer 0 7 115 3|115|
ask 0 7 115 45 2|115 0 4 1 45|grant 1 7 4 2+ 45 1
shows .........|.........|----";

/// The tables. What calls this does not carry their text through its proof.
fn tables() -> &'static str {
    TABLES
}

/// A step on a segment.
fn step_on(segment: u32, dir: Dir) -> DirSeg {
    DirSeg {
        seg: SegId(segment.min(65_535) as u16),
        dir,
    }
}

/// A field of a row; 0 where it has none.
fn field(fields: &[u32], at: usize) -> u32 {
    match fields.get(at) {
        Some(found) => *found,
        None => 0,
    }
}

/// An ask, for an offset on the last of some segments, up the line.
fn ask(train: TrainId, time: u64, fields: &[u32]) -> Option<Msg> {
    let [to, segments @ ..] = fields else {
        return None;
    };
    let mut steps = ArrayVec::new();
    for segment in segments {
        let _ = steps.try_push(step_on(*segment, Dir::Up));
    }
    Some(Msg::Ask {
        train,
        time,
        steps,
        to: *to,
    })
}

/// A request for entry at segment 1, of a train whose reports are off by at most 5 mm.
fn entry(train: TrainId, time: u64, fields: &[u32], equipped: bool) -> Option<Msg> {
    Some(Msg::EntryAsk {
        train,
        time,
        length: field(fields, 0),
        error: 5,
        speed: field(fields, 1).min(60_000) as u16,
        equipped,
        step: step_on(1, Dir::Up),
    })
}

/// A report of a train, which is whole or not known to be.
fn report(train: TrainId, time: u64, fields: &[u32], integrity: bool) -> Option<Msg> {
    Some(Msg::Report {
        train,
        time,
        mark: field(fields, 0),
        offset: field(fields, 1).min(1_000_000) as i32,
        integrity,
    })
}

/// An answer to a number.
fn answer(train: TrainId, time: u64, fields: &[u32], taken: bool) -> Option<Msg> {
    Some(Msg::Answer {
        train,
        time,
        number: field(fields, 0),
        taken,
    })
}

/// The order of a word.
fn order(word: &str, train: TrainId, time: u64, fields: &[u32]) -> Option<Msg> {
    let segment = field(fields, 0);
    let to = field(fields, 1);
    let order = match word {
        "close" => Order::Close(step_on(segment, Dir::Up).seg),
        "open" => Order::Open(step_on(segment, Dir::Up).seg),
        "short" => Order::Short(train, step_on(segment, Dir::Up), to),
        "back" => Order::Short(train, step_on(segment, Dir::Down), to),
        _ => return None,
    };
    Some(Msg::Order { time, order })
}

/// The message of a word.
fn message_of(word: &str, train: TrainId, time: u64, fields: &[u32]) -> Option<Msg> {
    match word {
        "time" => Some(Msg::Time { time, train }),
        "enter" => entry(train, time, fields, true),
        "unequipped" => entry(train, time, fields, false),
        "report" => report(train, time, fields, true),
        "unsure" => report(train, time, fields, false),
        "answer" => answer(train, time, fields, true),
        "refusal" => answer(train, time, fields, false),
        "ask" => ask(train, time, fields),
        _ => order(word, train, time, fields),
    }
}

/// The sender and the message of a row.
fn read(text: &str) -> Option<(u8, Msg)> {
    let (word, rest) = split(text, ' ');
    match numbers(rest).as_slice() {
        [from, train, time, fields @ ..] => {
            let train = TrainId((*train).min(65_535) as u16);
            let message = message_of(word, train, u64::from(*time), fields)?;
            Some(((*from).min(255) as u8, message))
        }
        _ => None,
    }
}

/// Whether the world can send a message.
fn in_range(message: &Msg) -> bool
    ensures { result ≡ true → InRange message.now }
{
    match message {
        Msg::EntryAsk { length, .. } => *length >= 1,
        _ => true,
    }
}

/// Whether one authority goes as told, or none where none is told.
fn is_sent(outs: &Outs, told: &[u32]) -> bool {
    match outs.messages() {
        [] => told.is_empty(),
        [
            (
                to,
                Msg::Auth {
                    number,
                    mark,
                    path,
                    ..
                },
            ),
        ] => told == [u32::from(*to), *number, *mark, path.to].as_slice(),
        _ => false,
    }
}

/// Whether this is the last outcome line; none where the text is empty.
fn is_told(outs: &Outs, text: &mut TextBuffer, told: &str) -> bool {
    let [.., line] = outs.lines() else {
        return told.is_empty();
    };
    text.clear();
    let _ = write_outcome(line, text);
    match text.as_slice() {
        [found @ .., b'\n'] => found == told.as_bytes(),
        _ => false,
    }
}

/// Whether a step gave what the row tells behind its message.
fn is_given(zone: &Zone, outs: &Outs, text: &mut TextBuffer, told: &str) -> bool {
    let (after, line) = split(told, '|');
    match numbers(after).as_slice() {
        [now, sent @ ..] => {
            zone.now() == u64::from(*now) && is_sent(outs, sent) && is_told(outs, text, line)
        }
        [] => false,
    }
}

/// The zone takes the message of a row; whether there is one.
fn take(line: &Line, zone: &mut Zone, outs: &mut Outs, message: &str) -> bool
    requires { IsZoneOn line.now zone.old }
    ensures { IsZoneOn line.now zone.new }
{
    match read(message) {
        Some((from, message)) if in_range(&message) => {
            outs.clear();
            zone.step(line, &message, from, outs);
            true
        }
        _ => false,
    }
}

/// Whether a cell is in the set, as a letter.
fn cell(set: &PointSet, seg: u16, mm: u32) -> u8 {
    if set.has_cell(SegId(seg), mm) {
        b'#'
    } else {
        b'.'
    }
}

/// The same of some cells of segments 1, 2 and 3.
fn cells(set: &PointSet) -> [u8; 9] {
    [
        cell(set, 1, 0),
        cell(set, 1, 39),
        cell(set, 1, 40),
        cell(set, 1, 94),
        cell(set, 1, 95),
        cell(set, 1, 99),
        cell(set, 2, 0),
        cell(set, 2, 49),
        cell(set, 3, 0),
    ]
}

/// The same of what the zone shows of train 7: what it holds for it, and its envelope, blank where it has none.
fn shown(line: &Line, zone: &Zone) -> ([u8; 9], [u8; 9])
    requires { IsZoneOn line.now zone.now }
{
    let envelope = match zone.envelope(line, TrainId(7)) {
        Some(set) => cells(&set),
        None => [b' '; 9],
    };
    (cells(&zone.held(TrainId(7))), envelope)
}

/// Which of the segments 1 to 4 are closed, as letters.
fn closed(zone: &Zone) -> [u8; 4] {
    let letter = |segment: u16| -> u8 {
        if zone.is_closed(SegId(segment)) {
            b'x'
        } else {
            b'-'
        }
    };
    [letter(1), letter(2), letter(3), letter(4)]
}

/// Whether the zone shows these cells and these closed segments.
fn is_shown(line: &Line, zone: &Zone, text: &str) -> bool
    requires { IsZoneOn line.now zone.now }
{
    let (held, envelope) = shown(line, zone);
    let (held_told, rest) = split(text, '|');
    let (envelope_told, closed_told) = split(rest, '|');
    held.as_slice() == held_told.as_bytes()
        && envelope.as_slice() == envelope_told.as_bytes()
        && closed(zone).as_slice() == closed_told.as_bytes()
}

/// Whether a row holds.
fn holds(line: &Line, zone: &mut Zone, outs: &mut Outs, text: &mut TextBuffer, row: &str) -> bool
    requires { IsZoneOn line.now zone.old }
    ensures { IsZoneOn line.now zone.new }
{
    if row.is_empty() || row.starts_with(' ') {
        return true;
    }
    if let Some(cells) = row.strip_prefix("shows ") {
        return is_shown(line, zone, cells);
    }
    let (message, told) = split(row, '|');
    take(line, zone, outs, message) && is_given(zone, outs, text, told)
}

/// Tries the rows of a table, one after the other.
fn try_rows(
    rt: &impl Abort,
    line: &Line,
    zone: &mut Zone,
    outs: &mut Outs,
    text: &mut TextBuffer,
    rows: &str,
)
    requires { IsZoneOn line.now zone.old }
{
    for row in rows.split('\n') {
        assert!(rt; holds(line, zone, outs, text, row), "{row}");
    }
}

/// Tries a table of a zone that begins.
fn try_table(
    rt: &(impl Abort + Alloc<A = Global>),
    line: &Line,
    outs: &mut Outs,
    text: &mut TextBuffer,
    rows: &str,
) -> Result<(), AllocError> {
    let mut zone = Zone::start(rt.alloc(), line, ZoneId(1))?;
    assert!(rt; zone.id() == 1 && zone.now() == 0);
    try_rows(rt, line, &mut zone, outs, text, rows);
    Ok(())
}

/// Tries the tables.
fn try_tables(rt: &(impl Abort + Alloc<A = Global>), line: &Line) -> Result<(), AllocError> {
    let mut outs = Outs::new(rt.alloc())?;
    let mut text = TextBuffer::new(rt.alloc(), 100)?;
    for table in tables().split('=') {
        try_table(rt, line, &mut outs, &mut text, table)?;
    }
    Ok(())
}

#[test]
fn a_zone_gives_what_the_tables_tell(rt: HostRuntime) -> Result<(), AllocError> {
    let line = line_of(&rt, LINE);
    try_tables(&rt, &line)
}

//! Events as text, and the columns of texts that are none or have a refused field. The trains 7 and 8 are declared, on a line of
//! one zone and two segments with a portal.

use crate::rows::split;
use crate::tests::line::line_of;
use arrayvec::ArrayVec;
use edge_io::buffer::TextBuffer;
use line_map::Line;
use script_text::{read_event, write_event};
use std::alloc::AllocError;
use std::process::Abort;
use track_points::TrainId;

/// The line of the tests.
const LINE: &str = "zone 1
segment 1 1 1000
segment 2 1 500
joint 1+ 2-
portal 1-
buffer 2+";

/// Events of each form that the line and the trains allow.
const EVENTS: &str = "train 9 1000 0 1 eq
train 65535 1000000 999999 60000 un
entry 7 1+
enter 7
step 5
step 5 7 0 8 3600000
report 7 1 2+ -1000000 1
report 7 1 2- 11000000 0
scan
time 1 0
time 1 7
ask 7 1 1+ 1
ask 7 1 1+ 2+ 1- 10000000
order close 1
order open 2
order short 1 7 2+ 5
leave 7
take 1 0 1
take 0 1 4294967295
deliver 0
restart 1
keepfail 1 old
keepfail 1 new
keepfail 1 get
noise 1 0 00
noise 0 1 ff7a
round 2000
lost 1 0 5";

/// The column of each text, and the text.
const REFUSED: &str = "11 take 1 0 01
10 take 1 0 9999999999
8 take 1 1 1
8 take 1 2 1
6 take 2 0 1
16 report 7 1 2+ -0 1
11 ask 7 1 2+
82 ask 7 1 1+ 1+ 1+ 1+ 1+ 1+ 1+ 1+ 1+ 1+ 1+ 1+ 1+ 1+ 1+ 1+ 1+ 1+ 1+ 1+ 1+ 1+ 1+ 1+ 1+
9 step 5 7
5 scan\x20
7 train 7 100 0 1 eq
7 train 0 100 0 1 eq
9 train 9 0 0 1 eq
11 train 9 5 5 1 eq
13 train 9 5 0 0 eq
7 entry 9 1+
9 entry 7 1-
9 entry 7 2+
7 enter 9
6 step 0
8 step 5 9 1
10 step 5 7 3600001
12 step 5 8 1 7 1
8 report 9 1 2+ 0 1
10 report 7 2 2+ 0 1
12 report 7 1 9+ 0 1
15 report 7 1 2+ -1000001 1
17 report 7 1 2+ 0 2
8 detect 1 free
6 time 2 0
8 time 1 9
9 ask 7 1 3+ 5
12 ask 7 1 1+ 0
13 order close 3
12 order open 0
12 order turn 1 +
11 order set 1 normal
20 order short 1 7 2+ -5
6 echo 1
7 leave 9
9 deliver 2
9 restart 2
10 keepfail 2 old
9 noise 1 1 00
12 noise 1 0 0A
7 round 2001
8 lost 0 0 1
10 lost 1 0 0";

/// The column at which a text is refused; 0 where it is an event.
fn column(text: &[u8], line: &Line) -> u32 {
    match read_event(text, line, &[TrainId(7), TrainId(8)]) {
        Ok(_) => 0,
        Err(fault) => fault.column,
    }
}

/// Whether a text is an event, which is written as that text.
fn is_written_back(text: &[u8], line: &Line, out: &mut TextBuffer) -> bool {
    match read_event(text, line, &[TrainId(7), TrainId(8)]) {
        Ok(event) => {
            out.clear();
            write_event(&event, out).is_ok() && out.as_slice() == text
        }
        Err(_) => false,
    }
}

/// Whether a text is refused at the column that a row tells.
fn is_refused(row: &str, line: &Line) -> bool {
    let (told, text) = split(row, ' ');
    told.parse::<u32>().ok() == Some(column(text.as_bytes(), line))
}

/// Events are read and written back, and others refused.
fn try_events(rt: &impl Abort, line: &Line, out: &mut TextBuffer) {
    for text in EVENTS.split('\n') {
        assert!(rt; is_written_back(text.as_bytes(), line, out), "{text}");
    }
    for row in REFUSED.split('\n') {
        assert!(rt; is_refused(row, line), "{row}");
    }
}

/// A step of 5 ms with so many moves, all of one train.
fn step_of(moves: usize) -> ArrayVec<u8, 4100> {
    let mut text = ArrayVec::new();
    let _ = text.try_extend_from_slice(b"step 5");
    for _ in 0..moves {
        let _ = text.try_extend_from_slice(b" 7 1");
    }
    text
}

/// The column of a step of so many moves of train 7, and of what follows them.
fn column_of(line: &Line, moves: usize, rest: &[u8]) -> u32 {
    let mut text = step_of(moves);
    let _ = text.try_extend_from_slice(rest);
    column(text.as_slice(), line)
}

/// Tries texts on a line.
fn try_texts(rt: &impl Abort, line: &Line, out: &mut TextBuffer) {
    try_events(rt, line, out);
    assert!(rt; column_of(line, 300, b"") == 12 && column_of(line, 1023, b" 7") == 4097);
}

#[test]
fn events_are_read_and_written_back(rt: HostRuntime) -> Result<(), AllocError> {
    let mut out = TextBuffer::new(rt.alloc(), 100)?;
    let line = line_of(&rt, LINE);
    try_texts(&rt, &line, &mut out);
    Ok(())
}

//! Outcome lines that are written, of the forms and with the words that no other table has.

use definitions::document::Ending;
use definitions::outcome::{Obstacle, Outcome, Refusal, SwitchObstacle};
use edge_io::buffer::TextBuffer;
use outcome_text::{write_ending, write_outcome};
use std::alloc::AllocError;
use track_points::{BlockId, Dir, DirSeg, Position, SectionId, SegId, SwitchId, TrainId, ZoneId};

/// A zone, a train, a section, a switch, a block and a step.
const Z: ZoneId = ZoneId(1);

const T: TrainId = TrainId(65535);

const U: TrainId = TrainId(8);

const D: SectionId = SectionId(9);

const W: SwitchId = SwitchId(5);

const B: BlockId = BlockId(6);

const UP: DirSeg = DirSeg {
    seg: SegId(32767),
    dir: Dir::Up,
};

/// Outcomes that no document gives yet.
const OUTCOMES: &[Outcome] = &[
    Outcome::NoEntry(Z, T, Refusal::TooMany),
    Outcome::NoEntry(Z, T, Refusal::NotFree(D)),
    Outcome::Lend(Z, T, 3, UP, 70, Obstacle::Section),
    Outcome::NoLend(Z, T, Obstacle::NotLent),
    Outcome::Hand(Z, T, 4, ZoneId(16)),
    Outcome::Have(Z, T, 5),
    Outcome::Gone(Z, T),
    Outcome::Switch(Z, W, 6, Position::Normal),
    Outcome::NoSwitch(Z, W, SwitchObstacle::Held(U)),
    Outcome::NoSwitch(Z, W, SwitchObstacle::Section(D)),
    Outcome::Turned(Z, B, Dir::Down),
    Outcome::NoTurn(Z, B, U),
    Outcome::AlarmStray(Z, D),
    Outcome::AlarmAhead(Z, D, T),
    Outcome::Halted(Z),
    Outcome::Restart(Z),
    Outcome::Moved(W, 8, Position::Reverse),
    Outcome::Derailed(T),
];

/// Their lines, and the last line of the only ending that no document has.
const LINES: &str = "noentry 1 65535 toomany
noentry 1 65535 notfree 9
lend 1 65535 3 32767+ 70 4
nolend 1 65535 8
hand 1 65535 4 16
have 1 65535 5
gone 1 65535
switch 1 5 6 normal
noswitch 1 5 held 8
noswitch 1 5 section 9
turned 1 6 -
noturn 1 6 8
alarm stray 1 9
alarm ahead 1 9 65535
halted 1
restart 1
moved 5 8 reverse
derailed 65535
limit messages 998000
";

/// Whether the outcomes and the ending are written as these lines.
fn are_written(out: &mut TextBuffer) -> bool {
    for outcome in OUTCOMES {
        let _ = write_outcome(outcome, out);
    }
    let _ = write_ending(&Ending::Messages, out);
    out.as_slice() == LINES.as_bytes()
}

#[test]
fn outcomes_are_written(rt: HostRuntime) -> Result<(), AllocError> {
    let mut out = TextBuffer::new(rt.alloc(), 1000)?;
    assert!(rt; are_written(&mut out));
    Ok(())
}

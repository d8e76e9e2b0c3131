//! Events from the values of their forms, whose fields are tried from left to right. An error is the number of spaces before the
//! field that is refused.
ghost use Rattle.std.specs.Prelude.{◌≡◌, ◌≤◌, ◌<◌, ◌+◌, ◌*◌, ◌++◌, ◌^◌, length, drop, ℕ, List};
ghost use Rattle.arrayvec.specs.ArrayVec.{array_vec_len};
ghost use Rattle.definitions.specs.declared.item.Item.{Item};
ghost use Rattle.definitions.specs.EventFields.{asked_of, moves_of, train_of, entry_of, enter_of, step_event_of, report_of, detect_of, scan_of, time_of, ask_of, close_of, open_of, turn_of, set_of, shorten_of, echo_of, leave_of, take_of, deliver_of, restart_of, keep_fail_of, noise_of, round_of, lost_of, is_offset, offset_of, keep_of};
ghost use Rattle.script_text.specs.Sees.{Makes, Puts, PutsAsked, HasRoom, AllBytes};

use crate::names::{begins, is_actor, is_ranged, is_segment, is_train, is_zone, step_of};
use arrayvec::ArrayVec;
use definitions::document::EventLine;
use definitions::event::{Event, KeepFail, Kind};
use definitions::trains::DeclaredTrains;
use line_map::Line;
use track_points::{DirSeg, SegId, TrainId, ZoneId};

/// A train is declared.
fn train<T: DeclaredTrains>(trains: &T, values: &[u64], says: &mut EventLine) -> Result<(), usize>
    ensures { Makes result says.new (train_of (T.known trains.now) values.now) }
{
    let [train, length, error, speed, kind] = values else {
        return Err(0);
    };
    if !is_ranged(1, 65535, *train) || trains.has(TrainId(*train as u16)) {
        return Err(1);
    }
    if !is_ranged(1, 1_000_000, *length) {
        return Err(2);
    }
    if *error >= *length {
        return Err(3);
    }
    if !is_ranged(1, 60_000, *speed) {
        return Err(4);
    }
    let kind = if *kind == 0 {
        Kind::Equipped
    } else {
        Kind::Unequipped
    };
    *says = EventLine::Event(Event::Train(
        TrainId(*train as u16),
        *length as u32,
        *error as u32,
        *speed as u32,
        kind,
    ));
    Ok(())
}

/// A train asks for entry.
fn entry<T: DeclaredTrains>(
    line: &Line,
    trains: &T,
    values: &[u64],
    says: &mut EventLine,
) -> Result<(), usize>
    ensures { Makes result says.new (entry_of line.now (T.known trains.now) values.now) }
{
    let [train, segment, sign] = values else {
        return Err(0);
    };
    if !is_train(trains, *train) {
        return Err(1);
    }
    if !is_ranged(1, 32767, *segment) || !begins(line, *segment, *sign) {
        return Err(2);
    }
    *says = EventLine::Event(Event::Entry(TrainId(*train as u16), step_of(*segment, *sign)));
    Ok(())
}

/// A train comes on.
fn enter<T: DeclaredTrains>(trains: &T, values: &[u64], says: &mut EventLine) -> Result<(), usize>
    ensures { Makes result says.new (enter_of (T.known trains.now) values.now) }
{
    match values {
        [train] if is_train(trains, *train) => {
            *says = EventLine::Event(Event::Enter(TrainId(*train as u16)));
            Ok(())
        }
        [_] => Err(1),
        _ => Err(0),
    }
}

/// Adds moves, at most so many, of trains above the last: 0, or the first field that is refused. That is one number, so that the
/// recursion is a loop of the machine.
#[tactic(auto, unfolding(definitions::specs::EventFields::moves_of))]
fn add_moves<T: DeclaredTrains>(
    moves: &mut ArrayVec<(TrainId, u32), 256>,
    trains: &T,
    more: usize,
    last: u64,
    field: usize,
    values: &[u64],
) -> usize
    requires room { array_vec_len moves.old + more ≤ 256 }
    requires small { field + length values.now < 2 ^ 32 }
    requires some { 0 < field }
    ensures { Puts moves.old.items moves.new.items result (moves_of (T.known trains.now) more last field values.now) }
{
    match values {
        [] => 0,
        [_] => field,
        [train, mm, others @ ..] => {
            if more == 0 || !is_train(trains, *train) || *train <= last {
                return field;
            }
            if *mm > 3_600_000 {
                return field + 1;
            }
            moves.push((TrainId(*train as u16), *mm as u32));
            add_moves(moves, trains, more - 1, *train, field + 2, others)
        }
    }
}

/// Time passes and trains move.
fn step<T: DeclaredTrains>(trains: &T, values: &[u64], says: &mut EventLine) -> Result<(), usize>
    requires { length values.now ≤ 4096 }
    ensures { Makes result says.new (step_event_of (T.known trains.now) values.now) }
{
    let [ms, others @ ..] = values else {
        return Err(0);
    };
    if !is_ranged(1, 60_000, *ms) {
        return Err(1);
    }
    *says = EventLine::Event(Event::Step(0, ArrayVec::new()));
    let EventLine::Event(event) = says else {
        unreachable!()
    };
    let Event::Step(passed, moves) = event else {
        unreachable!()
    };
    *passed = *ms as u32;
    match add_moves(moves, trains, 256, 0, 2, others) {
        0 => Ok(()),
        field => Err(field),
    }
}

/// An offset of a report, where it is within its bounds.
fn offset(value: u64) -> Option<i32>
    ensures { Rattle.script_text.specs.Sees.SeesOffset value result }
{
    if value <= 11_000_000 {
        Some(value as i32)
    } else if is_ranged(10_000_000_000_001, 10_000_001_000_000, value) {
        Some(0 - (value - 10_000_000_000_000) as i32)
    } else {
        None
    }
}

/// A train reports.
fn report<T: DeclaredTrains>(
    line: &Line,
    trains: &T,
    values: &[u64],
    says: &mut EventLine,
) -> Result<(), usize>
    ensures { Makes result says.new (report_of line.now (T.known trains.now) values.now) }
{
    let [train, zone, segment, sign, off, flag] = values else {
        return Err(0);
    };
    if !is_train(trains, *train) {
        return Err(1);
    }
    if !is_zone(line, *zone) {
        return Err(2);
    }
    if !is_segment(line, *segment) {
        return Err(3);
    }
    let Some(off) = offset(*off) else {
        return Err(4);
    };
    if *flag > 1 {
        return Err(5);
    }
    let step = step_of(*segment, *sign);
    *says = EventLine::Event(Event::Report(
        TrainId(*train as u16),
        ZoneId(*zone as u8),
        step,
        off,
        *flag == 1,
    ));
    Ok(())
}

/// A section shows whether it is free; none is declared yet.
fn detect(values: &[u64], says: &mut EventLine) -> Result<(), usize>
    ensures { (line : List Item) → Makes result says.new (detect_of line values.now) }
{
    match values {
        [_, _] => Err(1),
        _ => Err(0),
    }
}

/// Every section shows whether it is free.
fn scan(values: &[u64], says: &mut EventLine) -> Result<(), usize>
    ensures { Makes result says.new (scan_of values.now) }
{
    match values {
        [] => {
            *says = EventLine::Event(Event::Scan);
            Ok(())
        }
        _ => Err(0),
    }
}

/// The world tells the time.
fn time<T: DeclaredTrains>(
    line: &Line,
    trains: &T,
    values: &[u64],
    says: &mut EventLine,
) -> Result<(), usize>
    ensures { Makes result says.new (time_of line.now (T.known trains.now) values.now) }
{
    let [zone, train] = values else {
        return Err(0);
    };
    if !is_zone(line, *zone) {
        return Err(1);
    }
    if *train == 0 || is_train(trains, *train) {
        *says = EventLine::Event(Event::Time(ZoneId(*zone as u8), TrainId(*train as u16)));
        Ok(())
    } else {
        Err(2)
    }
}

/// Adds the steps of an ask, and puts the offset after them: 0, or the first field that is refused. That is one number, so that
/// the recursion is a loop of the machine.
#[tactic(auto, unfolding(definitions::specs::EventFields::asked_of))]
fn add_steps(
    steps: &mut ArrayVec<DirSeg, 24>,
    to: &mut u32,
    line: &Line,
    field: usize,
    values: &[u64],
) -> usize
    requires room { 2 * array_vec_len steps.old + length values.now ≤ 49 }
    requires small { field + length values.now < 2 ^ 32 }
    requires some { 0 < field }
    ensures { PutsAsked steps.old.items steps.new.items to.new result (asked_of line.now field values.now) }
{
    match values {
        [segment, sign, others @ ..] => {
            if !is_segment(line, *segment) {
                return field;
            }
            steps.push(step_of(*segment, *sign));
            add_steps(steps, to, line, field + 1, others)
        }
        [last] if is_ranged(1, 10_000_000, *last) => {
            *to = *last as u32;
            0
        }
        _ => field,
    }
}

/// A train asks for further steps.
fn ask<T: DeclaredTrains>(
    line: &Line,
    trains: &T,
    values: &[u64],
    says: &mut EventLine,
) -> Result<(), usize>
    requires { length values.now ≤ 51 }
    ensures { Makes result says.new (ask_of line.now (T.known trains.now) values.now) }
{
    let [train, zone, others @ ..] = values else {
        return Err(0);
    };
    if !is_train(trains, *train) {
        return Err(1);
    }
    if !is_zone(line, *zone) {
        return Err(2);
    }
    *says = EventLine::Event(Event::Ask(
        TrainId(*train as u16),
        ZoneId(*zone as u8),
        ArrayVec::new(),
        0,
    ));
    let EventLine::Event(event) = says else {
        unreachable!()
    };
    let Event::Ask(_, _, steps, to) = event else {
        unreachable!()
    };
    match add_steps(steps, to, line, 3, others) {
        0 => Ok(()),
        field => Err(field),
    }
}

/// A segment is to be closed.
fn close(line: &Line, values: &[u64], says: &mut EventLine) -> Result<(), usize>
    ensures { Makes result says.new (close_of line.now values.now) }
{
    match values {
        [segment] if is_segment(line, *segment) => {
            *says = EventLine::Event(Event::Close(SegId(*segment as u16)));
            Ok(())
        }
        [_] => Err(2),
        _ => Err(0),
    }
}

/// A segment is to be opened.
fn open(line: &Line, values: &[u64], says: &mut EventLine) -> Result<(), usize>
    ensures { Makes result says.new (open_of line.now values.now) }
{
    match values {
        [segment] if is_segment(line, *segment) => {
            *says = EventLine::Event(Event::Open(SegId(*segment as u16)));
            Ok(())
        }
        [_] => Err(2),
        _ => Err(0),
    }
}

/// A block is to be turned; none is declared yet.
fn turn(values: &[u64], says: &mut EventLine) -> Result<(), usize>
    ensures { (line : List Item) → Makes result says.new (turn_of line values.now) }
{
    match values {
        [_, _] => Err(2),
        _ => Err(0),
    }
}

/// A switch is to be set; none is declared yet.
fn set(values: &[u64], says: &mut EventLine) -> Result<(), usize>
    ensures { (line : List Item) → Makes result says.new (set_of line values.now) }
{
    match values {
        [_, _] => Err(2),
        _ => Err(0),
    }
}

/// An authority is to be shortened.
fn shorten<T: DeclaredTrains>(
    line: &Line,
    trains: &T,
    values: &[u64],
    says: &mut EventLine,
) -> Result<(), usize>
    ensures { Makes result says.new (shorten_of line.now (T.known trains.now) values.now) }
{
    let [zone, train, segment, sign, off] = values else {
        return Err(0);
    };
    if !is_zone(line, *zone) {
        return Err(2);
    }
    if !is_train(trains, *train) {
        return Err(3);
    }
    if !is_segment(line, *segment) {
        return Err(4);
    }
    if !is_ranged(1, 10_000_000, *off) {
        return Err(5);
    }
    let step = step_of(*segment, *sign);
    *says = EventLine::Event(Event::Shorten(
        ZoneId(*zone as u8),
        TrainId(*train as u16),
        step,
        *off as u32,
    ));
    Ok(())
}

/// A switch tells how it lies; none is declared yet.
fn echo(values: &[u64], says: &mut EventLine) -> Result<(), usize>
    ensures { (line : List Item) → Makes result says.new (echo_of line values.now) }
{
    match values {
        [_] => Err(1),
        _ => Err(0),
    }
}

/// A train leaves.
fn leave<T: DeclaredTrains>(trains: &T, values: &[u64], says: &mut EventLine) -> Result<(), usize>
    ensures { Makes result says.new (leave_of (T.known trains.now) values.now) }
{
    match values {
        [train] if is_train(trains, *train) => {
            *says = EventLine::Event(Event::Leave(TrainId(*train as u16)));
            Ok(())
        }
        [_] => Err(1),
        _ => Err(0),
    }
}

/// A message is taken.
fn take(line: &Line, values: &[u64], says: &mut EventLine) -> Result<(), usize>
    ensures { Makes result says.new (take_of line.now values.now) }
{
    let [to, from, number] = values else {
        return Err(0);
    };
    if !is_actor(line, *to) {
        return Err(1);
    }
    if !is_actor(line, *from) || *from == *to {
        return Err(2);
    }
    if !is_ranged(1, 4_294_967_295, *number) {
        return Err(3);
    }
    *says = EventLine::Event(Event::Take(*to as u8, *from as u8, *number as u32));
    Ok(())
}

/// All messages are taken.
fn deliver(line: &Line, values: &[u64], says: &mut EventLine) -> Result<(), usize>
    ensures { Makes result says.new (deliver_of line.now values.now) }
{
    match values {
        [to] if is_actor(line, *to) => {
            *says = EventLine::Event(Event::Deliver(*to as u8));
            Ok(())
        }
        [_] => Err(1),
        _ => Err(0),
    }
}

/// A zone restarts.
fn restart(line: &Line, values: &[u64], says: &mut EventLine) -> Result<(), usize>
    ensures { Makes result says.new (restart_of line.now values.now) }
{
    match values {
        [zone] if is_zone(line, *zone) => {
            *says = EventLine::Event(Event::Restart(ZoneId(*zone as u8)));
            Ok(())
        }
        [_] => Err(1),
        _ => Err(0),
    }
}

/// A keeper fails.
fn keep_fail(line: &Line, values: &[u64], says: &mut EventLine) -> Result<(), usize>
    ensures { Makes result says.new (keep_fail_of line.now values.now) }
{
    let [zone, fault] = values else {
        return Err(0);
    };
    if !is_zone(line, *zone) {
        return Err(1);
    }
    let fault = match *fault {
        0 => KeepFail::PutOld,
        1 => KeepFail::PutNew,
        _ => KeepFail::Get,
    };
    *says = EventLine::Event(Event::KeepFail(ZoneId(*zone as u8), fault));
    Ok(())
}

/// Adds bytes.
#[tactic(auto, unfolding(crate::specs::Sees::AllBytes))]
fn add_bytes(bytes: &mut ArrayVec<u8, 128>, values: &[u64])
    requires room { array_vec_len bytes.old + length values.now ≤ 128 }
    requires small { AllBytes values.now }
    ensures { bytes.new.items ≡ bytes.old.items ++ values.now }
{
    let [byte, others @ ..] = values else {
        return;
    };
    bytes.push(*byte as u8);
    add_bytes(bytes, others)
}

/// An actor is handed bytes.
fn noise(line: &Line, values: &[u64], says: &mut EventLine) -> Result<(), usize>
    requires room { length values.now ≤ 130 }
    requires small { AllBytes (drop 2 values.now) }
    ensures { Makes result says.new (noise_of line.now values.now) }
{
    let [to, from, others @ ..] = values else {
        return Err(0);
    };
    if !is_actor(line, *to) {
        return Err(1);
    }
    if !is_actor(line, *from) || *from == *to {
        return Err(2);
    }
    let mut bytes: ArrayVec<u8, 128> = ArrayVec::new();
    add_bytes(&mut bytes, others);
    *says = EventLine::Event(Event::Noise(*to as u8, *from as u8, bytes));
    Ok(())
}

/// A round is marked.
fn round(values: &[u64], says: &mut EventLine) -> Result<(), usize>
    ensures { Makes result says.new (round_of values.now) }
{
    match values {
        [number] if is_ranged(1, 2000, *number) => {
            *says = EventLine::Event(Event::Round(*number as u32));
            Ok(())
        }
        [_] => Err(1),
        _ => Err(0),
    }
}

/// A message is passed over.
fn lost(line: &Line, values: &[u64], says: &mut EventLine) -> Result<(), usize>
    ensures { Makes result says.new (lost_of line.now values.now) }
{
    let [from, to, number] = values else {
        return Err(0);
    };
    if !is_actor(line, *from) {
        return Err(1);
    }
    if !is_actor(line, *to) || *to == *from {
        return Err(2);
    }
    if !is_ranged(1, 4_294_967_295, *number) {
        return Err(3);
    }
    *says = EventLine::Event(Event::Lost(*from as u8, *to as u8, *number as u32));
    Ok(())
}

/// The event of the form at this place of the table, from its values, or its first refused field.
#[tactic(auto, unfolding(definitions::specs::EventFields::event_of))]
pub(crate) fn event_of<T: DeclaredTrains>(
    line: &Line,
    trains: &T,
    form: usize,
    values: &[u64],
    says: &mut EventLine,
) -> Result<(), usize>
    requires { HasRoom form values.now }
    ensures { Makes result says.new (Rattle.definitions.specs.EventFields.event_of line.now (T.known trains.now) form values.now) }
{
    match form {
        0 => train(trains, values, says),
        1 => entry(line, trains, values, says),
        2 => enter(trains, values, says),
        3 => step(trains, values, says),
        4 => report(line, trains, values, says),
        5 => detect(values, says),
        6 => scan(values, says),
        7 => time(line, trains, values, says),
        8 => ask(line, trains, values, says),
        9 => close(line, values, says),
        10 => open(line, values, says),
        11 => turn(values, says),
        12 => set(values, says),
        13 => shorten(line, trains, values, says),
        14 => echo(values, says),
        15 => leave(trains, values, says),
        16 => take(line, values, says),
        17 => deliver(line, values, says),
        18 => restart(line, values, says),
        19 => keep_fail(line, values, says),
        20 => noise(line, values, says),
        21 => round(values, says),
        22 => lost(line, values, says),
        _ => Err(0),
    }
}

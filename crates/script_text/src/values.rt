//! The values of events.
ghost use Rattle.std.specs.Prelude.{◌≡◌, ◌≤◌, ◌+◌, ◌*◌, ◌++◌, ◌∷◌, [], length, ℕ, List};
ghost use Rattle.arrayvec.specs.ArrayVec.{array_vec_len};
ghost use Rattle.definitions.specs.ItemText.{sign_value};
ghost use Rattle.definitions.specs.EventText.{event_place, event_values, step_values, move_values};

use arrayvec::ArrayVec;
use definitions::event::{Event, KeepFail, Kind, Occupancy};
use track_points::{Dir, DirSeg, Position, TrainId};

/// The values of an event; a step with 256 moves has the most.
pub(crate) type EventValues = ArrayVec<u64, 513>;

/// The value of a direction's sign.
fn sign_of(dir: Dir) -> u64
    ensures { result ≡ sign_value dir }
{
    match dir {
        Dir::Up => 0,
        Dir::Down => 1,
    }
}

/// The value of a train's kind.
fn kind_value(kind: Kind) -> u64
    ensures { result ≡ Rattle.definitions.specs.EventText.kind_value kind }
{
    match kind {
        Kind::Equipped => 0,
        Kind::Unequipped => 1,
    }
}

/// The value of what a section shows.
fn occupancy_value(shown: Occupancy) -> u64
    ensures { result ≡ Rattle.definitions.specs.EventText.occupancy_value shown }
{
    match shown {
        Occupancy::Free => 0,
        Occupancy::Occupied => 1,
    }
}

/// The value of a switch's position.
fn position_value(position: Position) -> u64
    ensures { result ≡ Rattle.definitions.specs.EventText.position_value position }
{
    match position {
        Position::Normal => 0,
        Position::Reverse => 1,
    }
}

/// The value of a keeper's failure.
fn keep_value(fault: KeepFail) -> u64
    ensures { result ≡ Rattle.definitions.specs.EventText.keep_value fault }
{
    match fault {
        KeepFail::PutOld => 0,
        KeepFail::PutNew => 1,
        KeepFail::Get => 2,
    }
}

/// The value of a flag.
fn flag_value(flag: bool) -> u64
    ensures { result ≡ Rattle.definitions.specs.EventText.flag_value flag }
{
    if flag { 1 } else { 0 }
}

/// The value of an offset that may be negative.
fn offset_value(offset: i32) -> u64
    ensures { result ≡ Rattle.definitions.specs.EventText.offset_value offset }
{
    let size = offset.unsigned_abs() as u64;
    if offset < 0 {
        10_000_000_000_000 + size
    } else {
        size
    }
}

/// Adds values.
fn add(values: &mut EventValues, more: &[u64])
    requires { array_vec_len values.old + length more.now ≤ 513 }
    ensures { values.new.items ≡ values.old.items ++ more.now }
{
    let _ = values.try_extend_from_slice(more);
}

/// Adds the number and the sign of a step.
fn add_step(values: &mut EventValues, step: DirSeg)
    requires { array_vec_len values.old + 2 ≤ 513 }
    ensures { values.new.items ≡ values.old.items ++ (step.seg.0 ∷ sign_value step.dir ∷ []) }
{
    values.push(step.seg.0 as u64);
    values.push(sign_of(step.dir));
}

/// Adds the number and the sign of each step, and then a number.
#[tactic(auto, unfolding(definitions::specs::EventText::step_values))]
fn add_steps(values: &mut EventValues, steps: &[DirSeg], to: u64)
    requires { array_vec_len values.old + 2 * length steps.now + 1 ≤ 513 }
    ensures { values.new.items ≡ values.old.items ++ step_values steps.now (to ∷ []) }
{
    let [step, others @ ..] = steps else {
        values.push(to);
        return;
    };
    add_step(values, *step);
    add_steps(values, others, to)
}

/// Adds the train and the mm of each move.
#[tactic(auto, unfolding(definitions::specs::EventText::move_values))]
fn add_moves(values: &mut EventValues, moves: &[(TrainId, u32)])
    requires { array_vec_len values.old + 2 * length moves.now ≤ 513 }
    ensures { values.new.items ≡ values.old.items ++ move_values moves.now }
{
    let [first, others @ ..] = moves else {
        return;
    };
    values.push(first.0.0 as u64);
    values.push(first.1 as u64);
    add_moves(values, others)
}

/// Adds bytes.
fn add_bytes(values: &mut EventValues, bytes: &[u8])
    requires { array_vec_len values.old + length bytes.now ≤ 513 }
    ensures { values.new.items ≡ values.old.items ++ bytes.now }
{
    let [byte, others @ ..] = bytes else {
        return;
    };
    values.push(*byte as u64);
    add_bytes(values, others)
}

/// The place of an event's form in the table.
pub(crate) fn place_of(event: &Event) -> usize
    ensures { result ≡ event_place event.now }
{
    match event {
        Event::Train(..) => 0,
        Event::Entry(..) => 1,
        Event::Enter(..) => 2,
        Event::Step(..) => 3,
        Event::Report(..) => 4,
        Event::Detect(..) => 5,
        Event::Scan => 6,
        Event::Time(..) => 7,
        Event::Ask(..) => 8,
        Event::Close(..) => 9,
        Event::Open(..) => 10,
        Event::Turn(..) => 11,
        Event::Set(..) => 12,
        Event::Shorten(..) => 13,
        Event::Echo(..) => 14,
        Event::Leave(..) => 15,
        Event::Take(..) => 16,
        Event::Deliver(..) => 17,
        Event::Restart(..) => 18,
        Event::KeepFail(..) => 19,
        Event::Noise(..) => 20,
        Event::Round(..) => 21,
        Event::Lost(..) => 22,
    }
}

/// The values of an event.
pub(crate) fn values_of(event: &Event) -> EventValues
    ensures { result.items ≡ event_values event.now }
{
    let mut values: EventValues = ArrayVec::new();
    match event {
        Event::Train(train, length, error, speed, kind) => add(
            &mut values,
            &[
                train.0 as u64,
                *length as u64,
                *error as u64,
                *speed as u64,
                kind_value(*kind),
            ],
        ),
        Event::Entry(train, step) => {
            values.push(train.0 as u64);
            add_step(&mut values, *step);
        }
        Event::Enter(train) | Event::Leave(train) => values.push(train.0 as u64),
        Event::Step(ms, moves) => {
            values.push(*ms as u64);
            add_moves(&mut values, moves.as_slice());
        }
        Event::Report(train, zone, step, off, whole) => {
            add(&mut values, &[train.0 as u64, zone.0 as u64]);
            add_step(&mut values, *step);
            add(&mut values, &[offset_value(*off), flag_value(*whole)]);
        }
        Event::Detect(section, shown) => {
            add(&mut values, &[section.0 as u64, occupancy_value(*shown)]);
        }
        Event::Scan => (),
        Event::Time(zone, train) => add(&mut values, &[zone.0 as u64, train.0 as u64]),
        Event::Ask(train, zone, steps, to) => {
            add(&mut values, &[train.0 as u64, zone.0 as u64]);
            add_steps(&mut values, steps.as_slice(), *to as u64);
        }
        Event::Close(segment) | Event::Open(segment) => {
            values.push(segment.0 as u64);
        }
        Event::Turn(block, dir) => add(&mut values, &[block.0 as u64, sign_of(*dir)]),
        Event::Set(switch, position) => {
            add(&mut values, &[switch.0 as u64, position_value(*position)]);
        }
        Event::Shorten(zone, train, step, off) => {
            add(&mut values, &[zone.0 as u64, train.0 as u64]);
            add_step(&mut values, *step);
            values.push(*off as u64);
        }
        Event::Echo(switch) => values.push(switch.0 as u64),
        Event::Take(first, second, number) | Event::Lost(first, second, number) => {
            add(
                &mut values,
                &[*first as u64, *second as u64, *number as u64],
            );
        }
        Event::Deliver(to) => values.push(*to as u64),
        Event::Restart(zone) => values.push(zone.0 as u64),
        Event::KeepFail(zone, fault) => {
            add(&mut values, &[zone.0 as u64, keep_value(*fault)]);
        }
        Event::Noise(to, from, bytes) => {
            add(&mut values, &[*to as u64, *from as u64]);
            add_bytes(&mut values, bytes.as_slice());
        }
        Event::Round(number) => values.push(*number as u64),
    }
    values
}

//! Writing fields behind what stands there.
ghost use Rattle.std.specs.Prelude.{◌≡◌, ◌≤◌, ◌+◌, ◌++◌, length};
ghost use Rattle.definitions.specs.FrameFields.{spelled, maybe};
ghost use Rattle.definitions.specs.FrameLayouts as spec;

use arrayvec::ArrayVec;
use byteorder::{BigEndian, ByteOrder};
use definitions::message::{Order, SeenWhat};
use track_points::{Dir, DirSeg, Path, Position};

/// Room for a frame.
pub type Frame = ArrayVec<u8, 128>;

/// Writes a number of 1 byte.
#[tactic(auto, unfolding(definitions::specs::FrameFields::spelled))]
pub fn put_1(out: &mut Frame, number: u8)
    requires { length out.old.items + 1 ≤ 128 }
    ensures items { out.new.items ≡ out.old.items ++ spelled 1 number }
    ensures len { length out.new.items ≡ length out.old.items + 1 }
{
    out.push(number);
}

/// Writes a number of 2 bytes.
#[tactic(auto, unfolding(definitions::specs::FrameFields::spelled))]
pub fn put_2(out: &mut Frame, number: u16)
    requires { length out.old.items + 2 ≤ 128 }
    ensures items { out.new.items ≡ out.old.items ++ spelled 2 number }
    ensures len { length out.new.items ≡ length out.old.items + 2 }
{
    let mut bytes = [0u8; 2];
    BigEndian::write_u16(&mut bytes, number);
    let _ = out.try_extend_from_slice(&bytes);
}

/// Writes a number of 4 bytes.
#[tactic(auto, unfolding(definitions::specs::FrameFields::spelled))]
pub fn put_4(out: &mut Frame, number: u32)
    requires { length out.old.items + 4 ≤ 128 }
    ensures items { out.new.items ≡ out.old.items ++ spelled 4 number }
    ensures len { length out.new.items ≡ length out.old.items + 4 }
{
    let mut bytes = [0u8; 4];
    BigEndian::write_u32(&mut bytes, number);
    let _ = out.try_extend_from_slice(&bytes);
}

/// Writes a time in ms, below 2^40.
#[tactic(auto, unfolding(definitions::specs::FrameLayouts::time, definitions::specs::FrameFields::spelled))]
pub fn put_time(out: &mut Frame, time: u64)
    requires { length out.old.items + 8 ≤ 128 }
    ensures items { out.new.items ≡ out.old.items ++ spec.time.spell time }
    ensures len { length out.new.items ≡ length out.old.items + 8 }
{
    let mut bytes = [0u8; 8];
    BigEndian::write_u64(&mut bytes, time);
    let _ = out.try_extend_from_slice(&bytes);
}

/// Writes a truth value, or flags with one known bit.
#[tactic(auto, unfolding(definitions::specs::FrameLayouts::yes))]
pub fn put_yes(out: &mut Frame, yes: bool)
    requires { length out.old.items + 1 ≤ 128 }
    ensures items { out.new.items ≡ out.old.items ++ spec.yes.spell yes }
    ensures len { length out.new.items ≡ length out.old.items + 1 }
{
    put_1(out, if yes { 1 } else { 0 });
}

/// Writes a position of a switch.
#[tactic(auto, unfolding(definitions::specs::FrameLayouts::position))]
pub fn put_position(out: &mut Frame, position: Position)
    requires { length out.old.items + 1 ≤ 128 }
    ensures items { out.new.items ≡ out.old.items ++ spec.position.spell position }
    ensures len { length out.new.items ≡ length out.old.items + 1 }
{
    let number = match position {
        Position::Normal => 0,
        Position::Reverse => 1,
    };
    put_1(out, number);
}

/// Writes what was seen.
#[tactic(auto, unfolding(definitions::specs::FrameLayouts::seen_what))]
pub fn put_seen(out: &mut Frame, what: SeenWhat)
    requires { length out.old.items + 1 ≤ 128 }
    ensures items { out.new.items ≡ out.old.items ++ spec.seen_what.spell what }
    ensures len { length out.new.items ≡ length out.old.items + 1 }
{
    let number = match what {
        SeenWhat::Hand => 1,
        SeenWhat::Return => 2,
    };
    put_1(out, number);
}

/// The number of a step.
fn step_number(step: DirSeg) -> u16
    ensures { result ≡ spec.step_number step }
{
    match step.dir {
        Dir::Up => step.seg.0 % 32768,
        Dir::Down => step.seg.0 % 32768 + 32768,
    }
}

/// Writes a step.
#[tactic(auto, unfolding(definitions::specs::FrameLayouts::step))]
pub fn put_step(out: &mut Frame, step: DirSeg)
    requires { length out.old.items + 2 ≤ 128 }
    ensures items { out.new.items ≡ out.old.items ++ spec.step.spell step }
    ensures len { length out.new.items ≡ length out.old.items + 2 }
{
    put_2(out, step_number(step));
}

/// Writes 1 to 24 steps.
#[tactic(auto, unfolding(definitions::specs::FrameLayouts::steps))]
pub fn put_steps(out: &mut Frame, steps: &ArrayVec<DirSeg, 24>)
    requires { length out.old.items + 49 ≤ 128 }
    ensures items { out.new.items ≡ out.old.items ++ spec.steps.spell steps.now }
    ensures len { length out.new.items ≤ length out.old.items + 49 }
{
    put_1(out, steps.len() as u8);
    for step in steps.as_slice() {
        put_step(out, *step);
    }
}

/// Writes a path.
#[tactic(auto, unfolding(definitions::specs::FrameLayouts::path))]
pub fn put_path(out: &mut Frame, path: &Path)
    requires { length out.old.items + 57 ≤ 128 }
    ensures items { out.new.items ≡ out.old.items ++ spec.path.spell path.now }
    ensures len { length out.new.items ≤ length out.old.items + 57 }
{
    put_steps(out, &path.steps);
    put_4(out, path.from);
    put_4(out, path.to);
}

/// Writes what is declared of a train: its length, error and speed, and its flags.
#[tactic(auto, unfolding(definitions::specs::FrameLayouts::facts))]
pub fn put_facts(out: &mut Frame, length: u32, error: u32, speed: u16, equipped: bool)
    requires { spec.size out.old + 11 ≤ 128 }
    ensures items { out.new.items ≡ out.old.items ++ spec.facts.spell (length, (error, (speed, equipped))) }
    ensures len { spec.size out.new ≡ spec.size out.old + 11 }
{
    put_4(out, length);
    put_4(out, error);
    put_2(out, speed);
    put_yes(out, equipped);
}

/// Writes an order.
#[tactic(auto, unfolding(definitions::specs::FrameLayouts::order, definitions::specs::FrameLayouts::order_fields, definitions::specs::FrameLayouts::id))]
pub fn put_order(out: &mut Frame, order: Order)
    requires { length out.old.items + 9 ≤ 128 }
    ensures { out.new.items ≡ out.old.items ++ spec.order.spell order }
{
    let (what, a, b, c) = order_parts(order);
    put_1(out, what);
    put_2(out, a);
    put_2(out, b);
    put_4(out, c);
}

/// The fields of an order.
fn order_parts(order: Order) -> (u8, u16, u16, u32)
    ensures { (result.0, (result.1, (result.2, result.3))) ≡ spec.order_parts order }
{
    match order {
        Order::Close(seg) => (1, seg.0, 0, 0),
        Order::Open(seg) => (2, seg.0, 0, 0),
        Order::Turn(block, Dir::Up) => (3, block.0, 0, 0),
        Order::Turn(block, Dir::Down) => (3, block.0, 1, 0),
        Order::Set(switch, Position::Normal) => (4, switch.0, 0, 0),
        Order::Set(switch, Position::Reverse) => (4, switch.0, 1, 0),
        Order::Short(train, step, to) => (5, train.0, step_number(step), to),
    }
}

/// Writes a path that may be none.
pub fn put_kept(out: &mut Frame, kept: &Option<Path>)
    requires { length out.old.items + 58 ≤ 128 }
    ensures { out.new.items ≡ out.old.items ++ (maybe spec.path).spell kept.now }
{
    match kept {
        None => put_1(out, 0),
        Some(path) => {
            put_1(out, 1);
            put_path(out, path);
        }
    }
}

/// Writes two numbers.
pub fn put_pair(out: &mut Frame, first: u32, second: u32)
    requires { length out.old.items + 8 ≤ 128 }
    ensures items { out.new.items ≡ out.old.items ++ (spelled 4 first ++ spelled 4 second) }
    ensures len { length out.new.items ≡ length out.old.items + 8 }
{
    put_4(out, first);
    put_4(out, second);
}

/// Writes the numbers of the last ask and lend, and the mark.
#[tactic(auto, unfolding(definitions::specs::FrameLayouts::numbers, definitions::specs::FrameLayouts::any, definitions::specs::FrameLayouts::ordinal))]
pub fn put_numbers(out: &mut Frame, ask: u32, lend: u32, mark: u32)
    requires { length out.old.items + 12 ≤ 128 }
    ensures items { out.new.items ≡ out.old.items ++ spec.numbers.spell (ask, (lend, mark)) }
    ensures len { length out.new.items ≡ length out.old.items + 12 }
{
    put_4(out, ask);
    put_4(out, lend);
    put_4(out, mark);
}

//! Reading fields from the left. Each reader gives a value and the bytes behind it.
ghost use Rattle.std.specs.Prelude.{◌≡◌, ◌≤◌, IfOk};
ghost use Rattle.definitions.specs.FrameFields.{Gives, number_at, items_at, maybe};
ghost use Rattle.definitions.specs.FrameLayouts.{id, time, ordinal, yes, position, offset, step, steps, path, facts, counts, fronts, numbers, order};
ghost use Rattle.definitions.specs.FrameLayouts as spec;

use crate::flags::integrity_of;
use arrayvec::ArrayVec;
use byteorder::{BigEndian, ByteOrder};
use definitions::frame::Unread;
use definitions::message::Order;
use track_points::{BlockId, Dir, DirSeg, Path, Position, SegId, SwitchId, TrainId};

/// A number of a byte from `lo` to `hi`.
#[tactic(auto, unfolding(definitions::specs::FrameFields::number_at))]
pub fn number_1(bytes: &[u8], lo: u8, hi: u8) -> Result<(u8, &[u8]), Unread>
    ensures most { IfOk result (λ x. x.0 ≤ hi) }
    ensures read { Gives (λ x. (x.0, x.1.now)) result (number_at 1 lo hi bytes.now) }
{
    let [number, rest @ ..] = bytes else {
        return Err(Unread::Short);
    };
    if *number < lo || hi < *number {
        return Err(Unread::Out(bytes.len()));
    }
    Ok((*number, rest))
}

/// A number of two bytes from `lo` to `hi`.
#[tactic(auto, unfolding(definitions::specs::FrameFields::number_at))]
pub fn number_2(bytes: &[u8], lo: u16, hi: u16) -> Result<(u16, &[u8]), Unread>
    ensures { Gives (λ x. (x.0, x.1.now)) result (number_at 2 lo hi bytes.now) }
{
    if bytes.len() < 2 {
        return Err(Unread::Short);
    }
    let number = BigEndian::read_u16(bytes);
    if number < lo || hi < number {
        return Err(Unread::Out(bytes.len()));
    }
    Ok((number, &bytes[2..]))
}

/// A number of four bytes from `lo` to `hi`.
#[tactic(auto, unfolding(definitions::specs::FrameFields::number_at))]
pub fn number_4(bytes: &[u8], lo: u32, hi: u32) -> Result<(u32, &[u8]), Unread>
    ensures most { IfOk result (λ x. x.0 ≤ hi) }
    ensures read { Gives (λ x. (x.0, x.1.now)) result (number_at 4 lo hi bytes.now) }
{
    if bytes.len() < 4 {
        return Err(Unread::Short);
    }
    let number = BigEndian::read_u32(bytes);
    if number < lo || hi < number {
        return Err(Unread::Out(bytes.len()));
    }
    Ok((number, &bytes[4..]))
}

/// Reads a time in ms, below 2^40.
#[tactic(auto, unfolding(definitions::specs::FrameLayouts::time, definitions::specs::FrameFields::number_at))]
pub fn read_time(bytes: &[u8]) -> Result<(u64, &[u8]), Unread>
    ensures { Gives (λ x. (x.0, x.1.now)) result (time.read bytes.now) }
{
    if bytes.len() < 8 {
        return Err(Unread::Short);
    }
    let time = BigEndian::read_u64(bytes);
    if (1 << 40) - 1 < time {
        return Err(Unread::Out(bytes.len()));
    }
    Ok((time, &bytes[8..]))
}

/// Reads an id, which is at least 1.
#[tactic(auto, unfolding(definitions::specs::FrameLayouts::id))]
pub fn read_id(bytes: &[u8]) -> Result<(u16, &[u8]), Unread>
    ensures { Gives (λ x. (x.0, x.1.now)) result (id.read bytes.now) }
{
    number_2(bytes, 1, u16::MAX)
}

/// Reads a number from 1.
#[tactic(auto, unfolding(definitions::specs::FrameLayouts::ordinal))]
pub fn read_ordinal(bytes: &[u8]) -> Result<(u32, &[u8]), Unread>
    ensures { Gives (λ x. (x.0, x.1.now)) result (ordinal.read bytes.now) }
{
    number_4(bytes, 1, u32::MAX)
}

/// Reads a truth value, or the flags of a train, of which one is known.
#[tactic(auto, unfolding(definitions::specs::FrameLayouts::yes))]
pub fn read_yes(bytes: &[u8]) -> Result<(bool, &[u8]), Unread>
    ensures { Gives (λ x. (x.0, x.1.now)) result (yes.read bytes.now) }
{
    let (number, rest) = number_1(bytes, 0, 1)?;
    Ok((number == 1, rest))
}

/// Reads the flags of a report.
#[tactic(auto, unfolding(definitions::specs::FrameLayouts::yes, definitions::specs::FrameFields::number_at))]
pub fn read_integrity(bytes: &[u8]) -> Result<(bool, &[u8]), Unread>
    ensures { Gives (λ x. (x.0, x.1.now)) result (yes.read bytes.now) }
{
    let [byte, rest @ ..] = bytes else {
        return Err(Unread::Short);
    };
    let Some(whole) = integrity_of(*byte) else {
        return Err(Unread::Out(bytes.len()));
    };
    Ok((whole, rest))
}

/// Reads a position of a switch.
#[tactic(auto, unfolding(definitions::specs::FrameLayouts::position))]
pub fn read_position(bytes: &[u8]) -> Result<(Position, &[u8]), Unread>
    ensures { Gives (λ x. (x.0, x.1.now)) result (position.read bytes.now) }
{
    let (number, rest) = number_1(bytes, 0, 1)?;
    let position = if number == 1 {
        Position::Reverse
    } else {
        Position::Normal
    };
    Ok((position, rest))
}

/// Reads an offset in mm.
#[tactic(auto, unfolding(definitions::specs::FrameLayouts::offset, definitions::specs::FrameLayouts::any))]
pub fn read_offset(bytes: &[u8]) -> Result<(i32, &[u8]), Unread>
    ensures { Gives (λ x. (x.0, x.1.now)) result (offset.read bytes.now) }
{
    let (number, rest) = number_4(bytes, 0, u32::MAX)?;
    let offset = number.cast_signed();
    if offset < -1_000_000 || 11_000_000 < offset {
        return Err(Unread::Out(bytes.len()));
    }
    Ok((offset, rest))
}

/// Reads a step.
#[tactic(auto, unfolding(definitions::specs::FrameLayouts::step))]
pub fn read_step(bytes: &[u8]) -> Result<(DirSeg, &[u8]), Unread>
    ensures { Gives (λ x. (x.0, x.1.now)) result (step.read bytes.now) }
{
    let (number, rest) = number_2(bytes, 0, u16::MAX)?;
    let seg = SegId(number % 32768);
    let dir = if number < 32768 { Dir::Up } else { Dir::Down };
    if seg.0 == 0 {
        return Err(Unread::Out(bytes.len()));
    }
    Ok((DirSeg { seg, dir }, rest))
}

/// As many steps as are told.
fn read_items(count: u8, bytes: &[u8]) -> Result<(ArrayVec<DirSeg, 24>, &[u8]), Unread>
    requires { count ≤ 24 }
    ensures { Gives (λ x. (x.0.items, x.1.now)) result (items_at step count bytes.now) }
{
    let mut out: ArrayVec<DirSeg, 24> = ArrayVec::new();
    let mut rest = bytes;
    for _ in 0..count {
        let (step, after) = read_step(rest)?;
        out.push(step);
        rest = after;
    }
    Ok((out, rest))
}

/// Reads 1 to 24 steps.
#[tactic(auto, unfolding(definitions::specs::FrameLayouts::steps))]
pub fn read_steps(bytes: &[u8]) -> Result<(ArrayVec<DirSeg, 24>, &[u8]), Unread>
    ensures { Gives (λ x. (x.0, x.1.now)) result (steps.read bytes.now) }
{
    let (count, rest) = number_1(bytes, 1, 24)?;
    read_items(count, rest)
}

/// Reads a path.
#[tactic(auto, unfolding(definitions::specs::FrameLayouts::path))]
pub fn read_path(bytes: &[u8]) -> Result<(Path, &[u8]), Unread>
    ensures { Gives (λ x. (x.0, x.1.now)) result (path.read bytes.now) }
{
    let (steps, rest) = read_steps(bytes)?;
    let (from, rest) = number_4(rest, 0, 9_999_999)?;
    let (to, rest) = number_4(rest, least_end(&steps, from), 10_000_000)?;
    Ok((Path { steps, from, to }, rest))
}

/// The least end of a path.
fn least_end(steps: &ArrayVec<DirSeg, 24>, from: u32) -> u32
    requires { from ≤ 9999999 }
    ensures { result ≡ spec.least_end steps.now from }
{
    if steps.len() == 1 { from + 1 } else { 1 }
}

/// Reads what is declared of a train: its length, error and speed, and its flags.
#[tactic(auto, unfolding(definitions::specs::FrameLayouts::facts))]
pub fn read_facts(bytes: &[u8]) -> Result<((u32, u32, u16, bool), &[u8]), Unread>
    ensures { Gives (λ x. ((x.0.0, (x.0.1, (x.0.2, x.0.3))), x.1.now)) result (facts.read bytes.now) }
{
    let (length, rest) = number_4(bytes, 1, 1_000_000)?;
    let (error, rest) = number_4(rest, 0, length.saturating_sub(1))?;
    let (speed, rest) = number_2(rest, 1, 60_000)?;
    let (equipped, rest) = read_yes(rest)?;
    Ok(((length, error, speed, equipped), rest))
}

/// Reads the last number issued and the greatest answered.
#[tactic(auto, unfolding(definitions::specs::FrameLayouts::counts))]
pub fn read_counts(bytes: &[u8]) -> Result<((u32, u32), &[u8]), Unread>
    ensures { Gives (λ x. (x.0, x.1.now)) result (counts.read bytes.now) }
{
    let (last, rest) = read_ordinal(bytes)?;
    let (answered, rest) = number_4(rest, 1, last)?;
    Ok(((last, answered), rest))
}

/// Reads the least and the greatest front, in mm.
#[tactic(auto, unfolding(definitions::specs::FrameLayouts::fronts))]
pub fn read_fronts(bytes: &[u8]) -> Result<((u32, u32), &[u8]), Unread>
    ensures { Gives (λ x. (x.0, x.1.now)) result (fronts.read bytes.now) }
{
    let (lo, rest) = number_4(bytes, 0, 240_000_000)?;
    let (hi, rest) = number_4(rest, lo, 240_000_000)?;
    Ok(((lo, hi), rest))
}

/// Reads the numbers of the last ask and lend, and the mark.
#[tactic(auto, unfolding(definitions::specs::FrameLayouts::numbers, definitions::specs::FrameLayouts::any))]
pub fn read_numbers(bytes: &[u8]) -> Result<((u32, u32, u32), &[u8]), Unread>
    ensures { Gives (λ x. ((x.0.0, (x.0.1, x.0.2)), x.1.now)) result (numbers.read bytes.now) }
{
    let (ask, rest) = number_4(bytes, 0, u32::MAX)?;
    let (lend, rest) = read_ordinal(rest)?;
    let (mark, rest) = number_4(rest, 0, u32::MAX)?;
    Ok(((ask, lend, mark), rest))
}

/// Reads an order.
#[tactic(auto, unfolding(definitions::specs::FrameLayouts::order, definitions::specs::FrameLayouts::order_fields))]
pub fn read_order(bytes: &[u8]) -> Result<(Order, &[u8]), Unread>
    ensures { Gives (λ x. (x.0, x.1.now)) result (order.read bytes.now) }
{
    let (what, rest) = number_1(bytes, 1, 5)?;
    let (a, rest) = read_id(rest)?;
    let (b, after) = number_2(rest, 0, u16::MAX)?;
    if !fits_b(what, b) {
        return Err(Unread::Out(rest.len()));
    }
    let (least, most) = range_c(what);
    let (c, after) = number_4(after, least, most)?;
    Ok((order_of(what, a, b, c), after))
}

/// Whether an order may have this field b.
fn fits_b(what: u8, b: u16) -> bool
    ensures { result ≡ spec.fits_b what b }
{
    match what {
        0..=2 => b == 0,
        3 | 4 => b < 2,
        _ => b % 32768 > 0,
    }
}

/// The range of the field c of an order.
fn range_c(what: u8) -> (u32, u32)
    ensures { result ≡ (spec.c_least what, spec.c_most what) }
{
    if what == 5 { (1, 10_000_000) } else { (0, 0) }
}

/// The order of these fields.
fn order_of(what: u8, a: u16, b: u16, c: u32) -> Order
    ensures { result ≡ spec.order_of (what, (a, (b, c))) }
{
    match what {
        1 => Order::Close(SegId(a)),
        2 => Order::Open(SegId(a)),
        3 => Order::Turn(BlockId(a), if b == 1 { Dir::Down } else { Dir::Up }),
        4 => {
            let position = if b == 1 {
                Position::Reverse
            } else {
                Position::Normal
            };
            Order::Set(SwitchId(a), position)
        }
        _ => {
            let dir = if b < 32768 { Dir::Up } else { Dir::Down };
            let seg = SegId(b % 32768);
            Order::Short(TrainId(a), DirSeg { seg, dir }, c)
        }
    }
}

/// Reads a path that may be none.
pub fn read_kept(bytes: &[u8]) -> Result<(Option<Path>, &[u8]), Unread>
    ensures { Gives (λ x. (x.0, x.1.now)) result ((maybe path).read bytes.now) }
{
    let (has, rest) = number_1(bytes, 0, 1)?;
    if has == 0 {
        return Ok((None, rest));
    }
    let (path, rest) = read_path(rest)?;
    Ok((Some(path), rest))
}

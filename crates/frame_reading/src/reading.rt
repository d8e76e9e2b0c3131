//! The message that bytes spell.
ghost use Rattle.std.specs.Prelude.{true, ◌≡◌, ◌≤◌, ◌+◌, length, IfOk, Ok};
ghost use Rattle.definitions.specs.FrameFields.{Gives, as_read};
ghost use Rattle.definitions.specs.FrameLayouts as spec;
ghost use Rattle.definitions.specs.Frames.{Fits, IsPlaced, placed, whole, frame_of, frame_at, body_at, handed_of, report_of, has_version, has_kind, reading_of, time_told_of, entry_ask_of, ask_of, answer_of, gone_of, echo_of, order_told_of, auth_of, switch_cmd_of, lend_ask_of, lend_of, returned_of, seen_told_of};

use definitions::frame::Unread;
use definitions::message::{Hand, Msg, SeenWhat};
use definitions::outcome::FrameFault;
use frame_fields::reading::{
    number_1, number_2, number_4, read_counts, read_facts, read_fronts, read_id, read_integrity,
    read_kept, read_numbers, read_offset, read_order, read_ordinal, read_path, read_position,
    read_step, read_steps, read_time, read_yes,
};
use track_points::{SectionId, SwitchId, TrainId};

/// Reads a report.
#[tactic(auto, unfolding(definitions::specs::FrameLayouts::report, definitions::specs::FrameLayouts::train, definitions::specs::FrameLayouts::any))]
fn report(bytes: &[u8]) -> Result<(Msg, &[u8]), Unread>
    ensures { Gives (λ x. (x.0, x.1.now)) result (as_read report_of (spec.report.read bytes.now)) }
{
    let (train, rest) = read_id(bytes)?;
    let (time, rest) = read_time(rest)?;
    let (mark, rest) = number_4(rest, 0, u32::MAX)?;
    let (offset, rest) = read_offset(rest)?;
    let (integrity, rest) = read_integrity(rest)?;
    Ok((
        Msg::Report {
            train: TrainId(train),
            time,
            mark,
            offset,
            integrity,
        },
        rest,
    ))
}

/// Reads what a section shows.
#[tactic(auto, unfolding(definitions::specs::FrameLayouts::reading, definitions::specs::FrameLayouts::section))]
fn reading(bytes: &[u8]) -> Result<(Msg, &[u8]), Unread>
    ensures { Gives (λ x. (x.0, x.1.now)) result (as_read reading_of (spec.reading.read bytes.now)) }
{
    let (section, rest) = read_id(bytes)?;
    let (time, rest) = read_time(rest)?;
    let (free, rest) = read_yes(rest)?;
    Ok((
        Msg::Reading {
            section: SectionId(section),
            time,
            free,
        },
        rest,
    ))
}

/// Reads the time.
#[tactic(auto, unfolding(definitions::specs::FrameLayouts::time_told, definitions::specs::FrameLayouts::any_train))]
fn time_told(bytes: &[u8]) -> Result<(Msg, &[u8]), Unread>
    ensures { Gives (λ x. (x.0, x.1.now)) result (as_read time_told_of (spec.time_told.read bytes.now)) }
{
    let (time, rest) = read_time(bytes)?;
    let (train, rest) = number_2(rest, 0, u16::MAX)?;
    Ok((
        Msg::Time {
            time,
            train: TrainId(train),
        },
        rest,
    ))
}

/// Reads a request for entry.
#[tactic(auto, unfolding(definitions::specs::FrameLayouts::entry_ask, definitions::specs::FrameLayouts::train))]
fn entry_ask(bytes: &[u8]) -> Result<(Msg, &[u8]), Unread>
    ensures { Gives (λ x. (x.0, x.1.now)) result (as_read entry_ask_of (spec.entry_ask.read bytes.now)) }
{
    let (train, rest) = read_id(bytes)?;
    let (time, rest) = read_time(rest)?;
    let ((length, error, speed, equipped), rest) = read_facts(rest)?;
    let (step, rest) = read_step(rest)?;
    Ok((
        Msg::EntryAsk {
            train: TrainId(train),
            time,
            length,
            error,
            speed,
            equipped,
            step,
        },
        rest,
    ))
}

/// Reads an ask.
#[tactic(auto, unfolding(definitions::specs::FrameLayouts::ask, definitions::specs::FrameLayouts::train, definitions::specs::FrameLayouts::end))]
fn ask(bytes: &[u8]) -> Result<(Msg, &[u8]), Unread>
    ensures { Gives (λ x. (x.0, x.1.now)) result (as_read ask_of (spec.ask.read bytes.now)) }
{
    let (train, rest) = read_id(bytes)?;
    let (time, rest) = read_time(rest)?;
    let (steps, rest) = read_steps(rest)?;
    let (to, rest) = number_4(rest, 1, 10_000_000)?;
    Ok((
        Msg::Ask {
            train: TrainId(train),
            time,
            steps,
            to,
        },
        rest,
    ))
}

/// Reads an answer.
#[tactic(auto, unfolding(definitions::specs::FrameLayouts::answer, definitions::specs::FrameLayouts::train))]
fn answer(bytes: &[u8]) -> Result<(Msg, &[u8]), Unread>
    ensures { Gives (λ x. (x.0, x.1.now)) result (as_read answer_of (spec.answer.read bytes.now)) }
{
    let (train, rest) = read_id(bytes)?;
    let (time, rest) = read_time(rest)?;
    let (number, rest) = read_ordinal(rest)?;
    let (taken, rest) = read_yes(rest)?;
    Ok((
        Msg::Answer {
            train: TrainId(train),
            time,
            number,
            taken,
        },
        rest,
    ))
}

/// Reads that a train has left.
#[tactic(auto, unfolding(definitions::specs::FrameLayouts::gone, definitions::specs::FrameLayouts::train))]
fn gone(bytes: &[u8]) -> Result<(Msg, &[u8]), Unread>
    ensures { Gives (λ x. (x.0, x.1.now)) result (as_read gone_of (spec.gone.read bytes.now)) }
{
    let (train, rest) = read_id(bytes)?;
    let (time, rest) = read_time(rest)?;
    Ok((
        Msg::Gone {
            train: TrainId(train),
            time,
        },
        rest,
    ))
}

/// Reads a switch's echo.
#[tactic(auto, unfolding(definitions::specs::FrameLayouts::echo, definitions::specs::FrameLayouts::switch, definitions::specs::FrameLayouts::any))]
fn echo(bytes: &[u8]) -> Result<(Msg, &[u8]), Unread>
    ensures { Gives (λ x. (x.0, x.1.now)) result (as_read echo_of (spec.echo.read bytes.now)) }
{
    let (switch, rest) = read_id(bytes)?;
    let (time, rest) = read_time(rest)?;
    let (number, rest) = number_4(rest, 0, u32::MAX)?;
    let (position, rest) = read_position(rest)?;
    Ok((
        Msg::Echo {
            switch: SwitchId(switch),
            time,
            number,
            position,
        },
        rest,
    ))
}

/// Reads an order.
#[tactic(auto, unfolding(definitions::specs::FrameLayouts::order_told))]
fn order_told(bytes: &[u8]) -> Result<(Msg, &[u8]), Unread>
    ensures { Gives (λ x. (x.0, x.1.now)) result (as_read order_told_of (spec.order_told.read bytes.now)) }
{
    let (time, rest) = read_time(bytes)?;
    let (order, rest) = read_order(rest)?;
    Ok((Msg::Order { time, order }, rest))
}

/// Reads an authority.
#[tactic(auto, unfolding(definitions::specs::FrameLayouts::auth, definitions::specs::FrameLayouts::train, definitions::specs::FrameLayouts::any))]
fn auth(bytes: &[u8]) -> Result<(Msg, &[u8]), Unread>
    ensures { Gives (λ x. (x.0, x.1.now)) result (as_read auth_of (spec.auth.read bytes.now)) }
{
    let (train, rest) = read_id(bytes)?;
    let (number, rest) = read_ordinal(rest)?;
    let (mark, rest) = number_4(rest, 0, u32::MAX)?;
    let (path, rest) = read_path(rest)?;
    Ok((
        Msg::Auth {
            train: TrainId(train),
            number,
            mark,
            path,
        },
        rest,
    ))
}

/// Reads a command to a switch.
#[tactic(auto, unfolding(definitions::specs::FrameLayouts::switch_cmd, definitions::specs::FrameLayouts::switch))]
fn switch_cmd(bytes: &[u8]) -> Result<(Msg, &[u8]), Unread>
    ensures { Gives (λ x. (x.0, x.1.now)) result (as_read switch_cmd_of (spec.switch_cmd.read bytes.now)) }
{
    let (switch, rest) = read_id(bytes)?;
    let (number, rest) = read_ordinal(rest)?;
    let (position, rest) = read_position(rest)?;
    Ok((
        Msg::SwitchCmd {
            switch: SwitchId(switch),
            number,
            position,
        },
        rest,
    ))
}

/// Reads an ask for a path of another zone.
#[tactic(auto, unfolding(definitions::specs::FrameLayouts::lend_ask, definitions::specs::FrameLayouts::train, definitions::specs::FrameLayouts::end))]
fn lend_ask(bytes: &[u8]) -> Result<(Msg, &[u8]), Unread>
    ensures { Gives (λ x. (x.0, x.1.now)) result (as_read lend_ask_of (spec.lend_ask.read bytes.now)) }
{
    let (train, rest) = read_id(bytes)?;
    let (ask, rest) = read_ordinal(rest)?;
    let (steps, rest) = read_steps(rest)?;
    let (to, rest) = number_4(rest, 1, 10_000_000)?;
    Ok((
        Msg::LendAsk {
            train: TrainId(train),
            ask,
            steps,
            to,
        },
        rest,
    ))
}

/// Reads a path that is lent.
#[tactic(auto, unfolding(definitions::specs::FrameLayouts::lend, definitions::specs::FrameLayouts::train))]
fn lend(bytes: &[u8]) -> Result<(Msg, &[u8]), Unread>
    ensures { Gives (λ x. (x.0, x.1.now)) result (as_read lend_of (spec.lend.read bytes.now)) }
{
    let (train, rest) = read_id(bytes)?;
    let (ask, rest) = read_ordinal(rest)?;
    let (lend, rest) = read_ordinal(rest)?;
    let (path, rest) = read_path(rest)?;
    Ok((
        Msg::Lend {
            train: TrainId(train),
            ask,
            lend,
            path,
        },
        rest,
    ))
}

/// Reads what is kept of a lent path.
#[tactic(auto, unfolding(definitions::specs::FrameLayouts::returned, definitions::specs::FrameLayouts::train))]
fn returned(bytes: &[u8]) -> Result<(Msg, &[u8]), Unread>
    ensures { Gives (λ x. (x.0, x.1.now)) result (as_read returned_of (spec.returned.read bytes.now)) }
{
    let (train, rest) = read_id(bytes)?;
    let (lend, rest) = read_ordinal(rest)?;
    let (kept, rest) = read_kept(rest)?;
    Ok((
        Msg::Return {
            train: TrainId(train),
            lend,
            kept,
        },
        rest,
    ))
}

/// Reads what was seen.
#[tactic(auto, unfolding(definitions::specs::FrameLayouts::seen_told, definitions::specs::FrameLayouts::train, definitions::specs::FrameLayouts::seen_what))]
fn seen_told(bytes: &[u8]) -> Result<(Msg, &[u8]), Unread>
    ensures { Gives (λ x. (x.0, x.1.now)) result (as_read seen_told_of (spec.seen_told.read bytes.now)) }
{
    let (train, rest) = read_id(bytes)?;
    let (seen, rest) = number_1(rest, 1, 2)?;
    let (number, rest) = read_ordinal(rest)?;
    let what = if seen == 1 {
        SeenWhat::Hand
    } else {
        SeenWhat::Return
    };
    Ok((
        Msg::Seen {
            train: TrainId(train),
            what,
            number,
        },
        rest,
    ))
}

/// Reads a hand-over behind its train.
#[tactic(auto, unfolding(definitions::specs::FrameLayouts::hand_rest))]
fn hand_rest(train: TrainId, bytes: &[u8]) -> Result<(Msg, &[u8]), Unread>
    ensures { Gives (λ x. (x.0, x.1.now)) result (as_read (λ y. handed_of (spec.hand_of (train, y))) (spec.hand_rest.read bytes.now)) }
{
    let (epoch, rest) = read_ordinal(bytes)?;
    let (time, rest) = read_time(rest)?;
    let ((length, error, speed, equipped), rest) = read_facts(rest)?;
    let ((last, answered), rest) = read_counts(rest)?;
    let ((lo, hi), rest) = read_fronts(rest)?;
    let ((ask, lend, mark), rest) = read_numbers(rest)?;
    let (path, rest) = read_path(rest)?;
    let hand = Hand {
        train,
        epoch,
        time,
        length,
        error,
        speed,
        equipped,
        last,
        answered,
        lo,
        hi,
        ask,
        lend,
        mark,
        path,
    };
    Ok((Msg::Hand(hand), rest))
}

/// Reads a hand-over.
#[tactic(auto, unfolding(definitions::specs::FrameLayouts::hand, definitions::specs::FrameLayouts::train))]
fn hand(bytes: &[u8]) -> Result<(Msg, &[u8]), Unread>
    ensures { Gives (λ x. (x.0, x.1.now)) result (as_read handed_of (spec.hand.read bytes.now)) }
{
    let (train, rest) = read_id(bytes)?;
    hand_rest(TrainId(train), rest)
}

/// The fields of a kind that its version has.
#[tactic(auto, unfolding(definitions::specs::Frames::body_at))]
fn body(version: u8, kind: u8, bytes: &[u8]) -> Result<(Msg, &[u8]), Unread>
    ensures { Gives (λ x. (x.0, x.1.now)) result (body_at version kind bytes.now) }
{
    match kind {
        1 => report(bytes),
        2 => reading(bytes),
        3 => time_told(bytes),
        4 => entry_ask(bytes),
        5 => ask(bytes),
        6 => answer(bytes),
        7 => gone(bytes),
        8 => echo(bytes),
        9 => order_told(bytes),
        10 => auth(bytes),
        11 => switch_cmd(bytes),
        12 => lend_ask(bytes),
        13 => lend(bytes),
        14 => returned(bytes),
        15 => hand(bytes),
        _ => seen_told(bytes),
    }
}

/// The place of the first byte of a field, from the number of bytes from it on.
fn fault_of(total: usize, unread: Unread) -> FrameFault
    requires { IsPlaced total unread }
    ensures { result ≡ placed total unread }
{
    match unread {
        Unread::Short => FrameFault::Short,
        Unread::Out(left) => FrameFault::Field((total - left) as u8),
    }
}

/// The message of a kind, whose frame goes on with these bytes.
fn rest_of(version: u8, kind: u8, bytes: &[u8]) -> Result<Msg, FrameFault>
    requires version { has_version version ≡ true }
    requires kind { has_kind version kind ≡ true }
    ensures { result ≡ whole (length bytes.now + 2) (body_at version kind bytes.now) }
{
    match body(version, kind, bytes) {
        Ok((message, [])) => Ok(message),
        Ok((_, _)) => Err(FrameFault::Long),
        Err(unread) => Err(fault_of(bytes.len() + 2, unread)),
    }
}

/// Whether frames have this version.
fn is_version(version: u8) -> bool
    ensures { result ≡ has_version version }
{
    version == 1
}

/// Whether frames of this version have this kind.
fn is_kind(version: u8, kind: u8) -> bool
    ensures { result ≡ has_kind version kind }
{
    0 < kind && kind < 17
}

/// What the bytes are, read from the left.
#[tactic(auto, unfolding(definitions::specs::Frames::frame_at))]
fn frame(bytes: &[u8]) -> Result<Msg, FrameFault>
    ensures { result ≡ frame_at bytes.now }
{
    let [version, after @ ..] = bytes else {
        return Err(FrameFault::Short);
    };
    if !is_version(*version) {
        return Err(FrameFault::Version);
    }
    let [kind, rest @ ..] = after else {
        return Err(FrameFault::Short);
    };
    if !is_kind(*version, *kind) {
        return Err(FrameFault::Kind);
    }
    rest_of(*version, *kind, rest)
}

/// The message whose frame the bytes are; else the first fault from the left.
pub fn decode(bytes: &[u8]) -> Result<Msg, FrameFault>
    // What is read is in its ranges, and spelled so.
    ensures found { IfOk result (λ m. Fits m × (bytes.now ≡ frame_of m)) }
    // What is spelled so is read.
    ensures only { (m : Msg) → Fits m → bytes.now ≡ frame_of m → result ≡ Ok m }
    // Which fault it is.
    ensures exact { result ≡ frame_at bytes.now }
{
    frame(bytes)
}

/// No two messages in their ranges have one frame.
pub fn one_frame_each()
    ensures { (m n : Msg) → Fits m → Fits n → frame_of m ≡ frame_of n → m ≡ n }
{}

//! The frame of a message.
ghost use Rattle.std.specs.Prelude.{◌≡◌, ◌≤◌, ◌++◌, ◌∷◌, [], length, drop};
ghost use Rattle.definitions.specs.FrameLayouts as spec;
ghost use Rattle.definitions.specs.Frames.{frame_of};

use arrayvec::ArrayVec;
use definitions::message::{Hand, Msg, Order, SeenWhat};
use frame_fields::writing::{
    Frame, put_2, put_4, put_facts, put_kept, put_numbers, put_order, put_pair, put_path,
    put_position, put_seen, put_step, put_steps, put_time, put_yes,
};
use track_points::{DirSeg, Path, Position, SectionId, SwitchId, TrainId};

/// The version and the kind.
fn head(version: u8, kind: u8) -> Frame
    ensures items { result.items ≡ version ∷ kind ∷ [] }
    ensures len { length result.items ≡ 2 }
{
    let mut out = ArrayVec::new();
    out.push(version);
    out.push(kind);
    out
}

/// The frame of a report.
#[tactic(auto, unfolding(definitions::specs::FrameLayouts::report, definitions::specs::FrameLayouts::train, definitions::specs::FrameLayouts::id, definitions::specs::FrameLayouts::any, definitions::specs::FrameLayouts::offset))]
fn report(train: TrainId, time: u64, mark: u32, offset: i32, integrity: bool) -> Frame
    ensures { result.items ≡ 1 ∷ 1 ∷ spec.report.spell (train, (time, (mark, (offset, integrity)))) }
{
    let mut out = head(1, 1);
    put_2(&mut out, train.0);
    put_time(&mut out, time);
    put_4(&mut out, mark);
    put_4(&mut out, offset.cast_unsigned());
    put_yes(&mut out, integrity);
    out
}

/// The frame of what a section shows.
#[tactic(auto, unfolding(definitions::specs::FrameLayouts::reading, definitions::specs::FrameLayouts::section, definitions::specs::FrameLayouts::id))]
fn reading(section: SectionId, time: u64, free: bool) -> Frame
    ensures { result.items ≡ 1 ∷ 2 ∷ spec.reading.spell (section, (time, free)) }
{
    let mut out = head(1, 2);
    put_2(&mut out, section.0);
    put_time(&mut out, time);
    put_yes(&mut out, free);
    out
}

/// The frame of the time.
#[tactic(auto, unfolding(definitions::specs::FrameLayouts::time_told, definitions::specs::FrameLayouts::any_train))]
fn time_told(time: u64, train: TrainId) -> Frame
    ensures { result.items ≡ 1 ∷ 3 ∷ spec.time_told.spell (time, train) }
{
    let mut out = head(1, 3);
    put_time(&mut out, time);
    put_2(&mut out, train.0);
    out
}

/// The frame of a request for entry.
#[tactic(auto, unfolding(definitions::specs::FrameLayouts::entry_ask, definitions::specs::FrameLayouts::train, definitions::specs::FrameLayouts::id))]
fn entry_ask(train: TrainId, time: u64, facts: (u32, u32, u16, bool), step: DirSeg) -> Frame
    ensures { result.items ≡ 1 ∷ 4 ∷ spec.entry_ask.spell (train, (time, ((facts.0, (facts.1, (facts.2, facts.3))), step))) }
{
    let mut out = head(1, 4);
    put_2(&mut out, train.0);
    put_time(&mut out, time);
    put_facts(&mut out, facts.0, facts.1, facts.2, facts.3);
    put_step(&mut out, step);
    out
}

/// The frame of an ask.
#[tactic(auto, unfolding(definitions::specs::FrameLayouts::ask, definitions::specs::FrameLayouts::train, definitions::specs::FrameLayouts::id, definitions::specs::FrameLayouts::end))]
fn ask(train: TrainId, time: u64, steps: &ArrayVec<DirSeg, 24>, to: u32) -> Frame
    ensures { result.items ≡ 1 ∷ 5 ∷ spec.ask.spell (train, (time, (steps.now, to))) }
{
    let mut out = head(1, 5);
    put_2(&mut out, train.0);
    put_time(&mut out, time);
    put_steps(&mut out, steps);
    put_4(&mut out, to);
    out
}

/// The frame of an answer.
#[tactic(auto, unfolding(definitions::specs::FrameLayouts::answer, definitions::specs::FrameLayouts::train, definitions::specs::FrameLayouts::id, definitions::specs::FrameLayouts::ordinal))]
fn answer(train: TrainId, time: u64, number: u32, taken: bool) -> Frame
    ensures { result.items ≡ 1 ∷ 6 ∷ spec.answer.spell (train, (time, (number, taken))) }
{
    let mut out = head(1, 6);
    put_2(&mut out, train.0);
    put_time(&mut out, time);
    put_4(&mut out, number);
    put_yes(&mut out, taken);
    out
}

/// The frame of that a train has left.
#[tactic(auto, unfolding(definitions::specs::FrameLayouts::gone, definitions::specs::FrameLayouts::train, definitions::specs::FrameLayouts::id))]
fn gone(train: TrainId, time: u64) -> Frame
    ensures { result.items ≡ 1 ∷ 7 ∷ spec.gone.spell (train, time) }
{
    let mut out = head(1, 7);
    put_2(&mut out, train.0);
    put_time(&mut out, time);
    out
}

/// The frame of a switch's echo.
#[tactic(auto, unfolding(definitions::specs::FrameLayouts::echo, definitions::specs::FrameLayouts::switch, definitions::specs::FrameLayouts::id, definitions::specs::FrameLayouts::any))]
fn echo(switch: SwitchId, time: u64, number: u32, position: Position) -> Frame
    ensures { result.items ≡ 1 ∷ 8 ∷ spec.echo.spell (switch, (time, (number, position))) }
{
    let mut out = head(1, 8);
    put_2(&mut out, switch.0);
    put_time(&mut out, time);
    put_4(&mut out, number);
    put_position(&mut out, position);
    out
}

/// The frame of an order.
#[tactic(auto, unfolding(definitions::specs::FrameLayouts::order_told))]
fn order_told(time: u64, order: Order) -> Frame
    ensures { result.items ≡ 1 ∷ 9 ∷ spec.order_told.spell (time, order) }
{
    let mut out = head(1, 9);
    put_time(&mut out, time);
    put_order(&mut out, order);
    out
}

/// The frame of an authority.
#[tactic(auto, unfolding(definitions::specs::FrameLayouts::auth, definitions::specs::FrameLayouts::train, definitions::specs::FrameLayouts::id, definitions::specs::FrameLayouts::ordinal, definitions::specs::FrameLayouts::any))]
fn auth(train: TrainId, number: u32, mark: u32, path: &Path) -> Frame
    ensures { result.items ≡ 1 ∷ 10 ∷ spec.auth.spell (train, (number, (mark, path.now))) }
{
    let mut out = head(1, 10);
    put_2(&mut out, train.0);
    put_4(&mut out, number);
    put_4(&mut out, mark);
    put_path(&mut out, path);
    out
}

/// The frame of a command to a switch.
#[tactic(auto, unfolding(definitions::specs::FrameLayouts::switch_cmd, definitions::specs::FrameLayouts::switch, definitions::specs::FrameLayouts::id, definitions::specs::FrameLayouts::ordinal))]
fn switch_cmd(switch: SwitchId, number: u32, position: Position) -> Frame
    ensures { result.items ≡ 1 ∷ 11 ∷ spec.switch_cmd.spell (switch, (number, position)) }
{
    let mut out = head(1, 11);
    put_2(&mut out, switch.0);
    put_4(&mut out, number);
    put_position(&mut out, position);
    out
}

/// The frame of an ask for a path of another zone.
#[tactic(auto, unfolding(definitions::specs::FrameLayouts::lend_ask, definitions::specs::FrameLayouts::train, definitions::specs::FrameLayouts::id, definitions::specs::FrameLayouts::ordinal, definitions::specs::FrameLayouts::end))]
fn lend_ask(train: TrainId, ask: u32, steps: &ArrayVec<DirSeg, 24>, to: u32) -> Frame
    ensures { result.items ≡ 1 ∷ 12 ∷ spec.lend_ask.spell (train, (ask, (steps.now, to))) }
{
    let mut out = head(1, 12);
    put_2(&mut out, train.0);
    put_4(&mut out, ask);
    put_steps(&mut out, steps);
    put_4(&mut out, to);
    out
}

/// The frame of a path that is lent.
#[tactic(auto, unfolding(definitions::specs::FrameLayouts::lend, definitions::specs::FrameLayouts::train, definitions::specs::FrameLayouts::id, definitions::specs::FrameLayouts::ordinal))]
fn lend(train: TrainId, ask: u32, lend: u32, path: &Path) -> Frame
    ensures { result.items ≡ 1 ∷ 13 ∷ spec.lend.spell (train, (ask, (lend, path.now))) }
{
    let mut out = head(1, 13);
    put_2(&mut out, train.0);
    put_4(&mut out, ask);
    put_4(&mut out, lend);
    put_path(&mut out, path);
    out
}

/// The frame of what is kept of a lent path.
#[tactic(auto, unfolding(definitions::specs::FrameLayouts::returned, definitions::specs::FrameLayouts::train, definitions::specs::FrameLayouts::id, definitions::specs::FrameLayouts::ordinal))]
fn returned(train: TrainId, lend: u32, kept: &Option<Path>) -> Frame
    ensures { result.items ≡ 1 ∷ 14 ∷ spec.returned.spell (train, (lend, kept.now)) }
{
    let mut out = head(1, 14);
    put_2(&mut out, train.0);
    put_4(&mut out, lend);
    put_kept(&mut out, kept);
    out
}

/// The frame of what was seen.
#[tactic(auto, unfolding(definitions::specs::FrameLayouts::seen_told, definitions::specs::FrameLayouts::train, definitions::specs::FrameLayouts::id, definitions::specs::FrameLayouts::ordinal))]
fn seen_told(train: TrainId, what: SeenWhat, number: u32) -> Frame
    ensures { result.items ≡ 1 ∷ 16 ∷ spec.seen_told.spell (train, (what, number)) }
{
    let mut out = head(1, 16);
    put_2(&mut out, train.0);
    put_seen(&mut out, what);
    put_4(&mut out, number);
    out
}

/// The frame of a hand-over of control.
#[tactic(auto, unfolding(definitions::specs::FrameLayouts::hand, definitions::specs::FrameLayouts::hand_rest, definitions::specs::FrameLayouts::train, definitions::specs::FrameLayouts::id, definitions::specs::FrameLayouts::ordinal, definitions::specs::FrameLayouts::counts, definitions::specs::FrameLayouts::fronts))]
fn hand(h: &Hand) -> Frame
    ensures { result.items ≡ 1 ∷ 15 ∷ spec.hand.spell h.now }
{
    let mut out = head(1, 15);
    put_2(&mut out, h.train.0);
    put_4(&mut out, h.epoch);
    put_time(&mut out, h.time);
    put_facts(&mut out, h.length, h.error, h.speed, h.equipped);
    put_pair(&mut out, h.last, h.answered);
    put_pair(&mut out, h.lo, h.hi);
    put_numbers(&mut out, h.ask, h.lend, h.mark);
    put_path(&mut out, &h.path);
    out
}

/// The frame of a message, the one that decodes to it. It takes no memory.
#[tactic(auto, unfolding(definitions::specs::Frames::frame_of))]
pub fn frame(m: &Msg) -> Frame
    ensures { result.items ≡ frame_of m.now }
{
    match m {
        Msg::Report {
            train,
            time,
            mark,
            offset,
            integrity,
        } => report(*train, *time, *mark, *offset, *integrity),
        Msg::Reading {
            section,
            time,
            free,
        } => reading(*section, *time, *free),
        Msg::Time { time, train } => time_told(*time, *train),
        Msg::EntryAsk {
            train,
            time,
            length,
            error,
            speed,
            equipped,
            step,
        } => { entry_ask(*train, *time, (*length, *error, *speed, *equipped), *step) }
        Msg::Ask {
            train,
            time,
            steps,
            to,
        } => ask(*train, *time, steps, *to),
        Msg::Answer {
            train,
            time,
            number,
            taken,
        } => answer(*train, *time, *number, *taken),
        Msg::Gone { train, time } => gone(*train, *time),
        Msg::Echo {
            switch,
            time,
            number,
            position,
        } => echo(*switch, *time, *number, *position),
        Msg::Order { time, order } => order_told(*time, *order),
        Msg::Auth {
            train,
            number,
            mark,
            path,
        } => auth(*train, *number, *mark, path),
        Msg::SwitchCmd {
            switch,
            number,
            position,
        } => switch_cmd(*switch, *number, *position),
        Msg::LendAsk {
            train,
            ask,
            steps,
            to,
        } => lend_ask(*train, *ask, steps, *to),
        Msg::Lend {
            train,
            ask,
            lend: number,
            path,
        } => lend(*train, *ask, *number, path),
        Msg::Return { train, lend, kept } => returned(*train, *lend, kept),
        Msg::Hand(h) => hand(h),
        Msg::Seen {
            train,
            what,
            number,
        } => seen_told(*train, *what, *number),
    }
}

/// Writes the frame of a message to the front, and answers its length.
pub fn encode(m: &Msg, out: &mut [u8; 128]) -> usize
    ensures written { out.new ≡ frame_of m.now ++ drop result out.old }
    ensures len { result ≡ length (frame_of m.now) }
    ensures few { result ≤ 128 }
{
    let frame = frame(m);
    let len = frame.len();
    out[..len].copy_from_slice(frame.as_slice());
    len
}

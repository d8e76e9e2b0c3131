//! Shrinks: authorities that end before a train's way does. The way stays until the train has taken the shrink.
ghost use Rattle.std.specs.Prelude.{◌≡◌, ◌<◌, ◌+◌, ◌^◌, None, Some, true};
ghost use Rattle.definitions.specs.Track.{seg_len};
ghost use Rattle.definitions.specs.Steps.{nothing, path_to, up_to, shorten, no_short};
ghost use Rattle.way_path.specs.Ways.{EndsWithPath, plain_way};
ghost use Rattle.authority_ledger.specs.Ledger.{IsLedger, shorter};
ghost use Rattle.plain_state.specs.Zone.{answer, check, end_pending, short_found, shortened, fresh_train};
ghost use Rattle.zone_trains.specs.Trains.{TrainFits, IsHold, end_at, short_end};

use crate::trains::hold_of;
use authority_ledger::Answered;
use definitions::outcome::ShortRefusal;
use line_map::Line;
use msg_codec::{Msg, Outcome, Outs};
use plain_state::Controlled;
use track_points::{DirSeg, Path, PointSet, TrainId, ZoneId};
use way_path::Way;
use way_path::on_steps::{last_step, offset_to, steps_to};
use zone_reach::steps::place_of_step;

/// The path of a way up to a place.
fn path_to(line: &Line, way: &Way, place: u32) -> Path
    ensures { result ≡ path_to (seg_len line.now) way.now.path.from way.now.path.steps.items place }
{
    let path = way.path();
    let steps = path.steps.as_slice();
    Path {
        steps: steps_to(line, steps, place),
        from: path.from,
        to: offset_to(line, steps, place),
    }
}

/// The path of a train's last authority: that of the way, up to the end of an unanswered shrink.
pub fn last_path(line: &Line, x: &Controlled) -> Path
    ensures { result ≡ (up_to (seg_len line.now) (end_pending x.now.ledger.pending) (plain_way x.now.way)).path }
{
    match x.ledger.pending() {
        Some((_, end)) => path_to(line, &x.way, end),
        None => x.way.path().copy(),
    }
}

/// A train answers a number. Where it took a shrink, its way and its fronts end where the shrink does, and no more is held
/// for it.
pub fn take_answer(
    line: &Line,
    zone: u8,
    x: &mut Controlled,
    hold: &mut PointSet,
    number: u32,
    taken: bool,
)
    requires fits { TrainFits line.now x.old.fronts.at x.old }
    requires hold { IsHold line.now zone x.old hold.old }
    ensures next { x.new ≡ answer (seg_len line.now) number taken x.old }
    ensures fits { TrainFits line.now x.old.fronts.at x.new }
    ensures hold { IsHold line.now zone x.new hold.new }
{
    if let Answered::Shrunk(end) = x.ledger.answer(number, taken) {
        x.way.set_end(line, end);
        x.fronts.hi = x.fronts.hi.min(end);
        *hold = hold_of(line, zone, &x.way);
    }
}

/// Counts an unanswered shrink as refused where the least front has passed its end.
pub(crate) fn check(x: &mut Controlled)
    requires { IsLedger x.old.ledger }
    ensures { x.new ≡ check x.old }
{
    if let Some((number, end)) = x.ledger.pending()
        && end < x.fronts.lo
    {
        let _ = x.ledger.answer(number, false);
    }
}

/// A place where a way may end early: not before the greatest front, and before the way's end.
fn end_at(front: u32, end: u32, place: u64) -> Result<u32, ShortRefusal>
    ensures { result ≡ end_at front end place }
{
    if front as u64 <= place && place < end as u64 {
        Ok(place as u32)
    } else {
        Err(ShortRefusal::Place)
    }
}

/// Where a short order lets the way of a train end, or why it does not.
fn short_end(line: &Line, x: &Controlled, step: DirSeg, off: u32) -> Result<u32, ShortRefusal>
    requires { EndsWithPath (seg_len line.now) x.now.way }
    ensures { result ≡ short_end (seg_len line.now) step off x.now }
{
    if !x.equipped {
        return Err(ShortRefusal::Unequipped);
    }
    if x.ledger.pending().is_some() {
        return Err(ShortRefusal::Pending);
    }
    let steps = x.way.path().steps.as_slice();
    let Some(place) = place_of_step(line, steps, step, off) else {
        return Err(ShortRefusal::Place);
    };
    end_at(x.fronts.hi, x.way.end(), place)
}

pub fn not_shortened(zone: u8, train: TrainId, refusal: ShortRefusal, outs: &mut Outs)
    requires { outs.old ≡ nothing }
    ensures { outs.new ≡ no_short zone train refusal }
{
    outs.tell(Outcome::NoShort(ZoneId(zone), train, refusal));
}

/// Issues a shrink, which ends at a place on the way.
fn shorten(line: &Line, zone: u8, train: TrainId, x: &mut Controlled, end: u32, outs: &mut Outs)
    requires empty { outs.old ≡ nothing }
    requires numbers { IsLedger x.old.ledger }
    requires none { x.old.ledger.pending ≡ None }
    requires room { x.old.ledger.last + 1 < 2 ^ 32 }
    ensures gives { outs.new ≡ shorten (seg_len line.now) zone train (x.old.ledger.last + 1) (plain_way x.old.way) end }
    ensures next { x.new ≡ record x.old { ledger = shorter end x.old.ledger } }
    ensures numbers { IsLedger x.new.ledger }
{
    let _ = x.ledger.issue_shorter(end);
    let number = x.ledger.last();
    let path = path_to(line, &x.way, end);
    outs.tell(Outcome::Short(
        ZoneId(zone),
        train,
        number,
        last_step(path.steps.as_slice()),
        path.to,
    ));
    outs.send(
        0,
        Msg::Auth {
            train,
            number,
            mark: x.way.mark(),
            path,
        },
    );
}

/// A train's way is to end at an offset of a step.
pub fn take_short(
    line: &Line,
    zone: u8,
    train: TrainId,
    x: &mut Controlled,
    step: DirSeg,
    off: u32,
    outs: &mut Outs,
)
    requires empty { outs.old ≡ nothing }
    requires fits { TrainFits line.now x.old.fronts.at x.old }
    requires fresh { fresh_train x.old ≡ true }
    ensures gives { outs.new ≡ short_found (seg_len line.now) zone train (Some x.old) step off }
    ensures next { x.new ≡ shortened (seg_len line.now) step off x.old }
    ensures fits { TrainFits line.now x.old.fronts.at x.new }
{
    match short_end(line, x, step, off) {
        Ok(end) => shorten(line, zone, train, x, end, outs),
        Err(refusal) => not_shortened(zone, train, refusal, outs),
    }
}

//! Outcomes and the values of their parts.
ghost use Rattle.std.specs.Prelude.{◌≡◌, ◌≤◌, ◌<◌, length};
ghost use Rattle.definitions.specs.EventText;
ghost use Rattle.definitions.specs.ItemText.{sign_value};
ghost use Rattle.definitions.specs.OutcomeText.{outcome_place, outcome_values, refusal_place, fault_place};
ghost use Rattle.outcome_text.specs.Fits.{FitOutcome};

use arrayvec::ArrayVec;
use definitions::outcome::{
    AnswerWord, FrameFault, Obstacle, Outcome, Refusal, ShortRefusal, SwitchObstacle,
};
use track_points::{Dir, Position, SwitchId, TrainId, ZoneId};

/// The values of an outcome; a place has the most.
pub(crate) type OutcomeValues = ArrayVec<u64, 8>;

/// The value of a direction's sign.
fn sign_of(dir: Dir) -> u64
    ensures is { result ≡ sign_value dir }
    ensures small { result < 2 }
{
    match dir {
        Dir::Up => 0,
        Dir::Down => 1,
    }
}

/// The value of a switch's position.
fn position_value(position: Position) -> u64
    ensures is { result ≡ EventText.position_value position }
    ensures small { result < 2 }
{
    match position {
        Position::Normal => 0,
        Position::Reverse => 1,
    }
}

/// The value of an answer.
fn answer_value(word: AnswerWord) -> u64
    ensures is { result ≡ Rattle.definitions.specs.OutcomeText.answer_value word }
    ensures small { result < 2 }
{
    match word {
        AnswerWord::Taken => 0,
        AnswerWord::Refused => 1,
    }
}

/// The value of why an authority is not shortened.
fn short_value(refusal: ShortRefusal) -> u64
    ensures is { result ≡ Rattle.definitions.specs.OutcomeText.short_value refusal }
    ensures small { result < 4 }
{
    match refusal {
        ShortRefusal::Away => 0,
        ShortRefusal::Unequipped => 1,
        ShortRefusal::Pending => 2,
        ShortRefusal::Place => 3,
    }
}

/// The code of an obstacle.
fn code_of(obstacle: Obstacle) -> u64
    ensures is { result ≡ Rattle.definitions.specs.OutcomeText.code_of obstacle }
    ensures small { result < 13 }
{
    match obstacle {
        Obstacle::AskEnds => 1,
        Obstacle::TrackEnds => 2,
        Obstacle::Held => 3,
        Obstacle::Section => 4,
        Obstacle::Switch => 5,
        Obstacle::Traffic => 6,
        Obstacle::Closed => 7,
        Obstacle::NotLent => 8,
        Obstacle::Pending => 9,
        Obstacle::NotJoined => 10,
        Obstacle::Silent => 11,
        Obstacle::PathFull => 12,
    }
}

/// The place of a refused entry's form.
fn entry_place(refusal: Refusal) -> usize
    ensures { result ≡ refusal_place refusal }
{
    match refusal {
        Refusal::Held(_) | Refusal::NotFree(_) => 2,
        Refusal::Known | Refusal::TooMany | Refusal::TooLong => 1,
    }
}

/// The place of the form of bytes that are no frame.
fn noise_place(fault: FrameFault) -> usize
    ensures { result ≡ fault_place fault }
{
    match fault {
        FrameFault::Field(_) => 28,
        FrameFault::Short | FrameFault::Version | FrameFault::Kind | FrameFault::Long => 27,
    }
}

/// The place of an outcome's form in the table.
pub(crate) fn place_of(outcome: &Outcome) -> usize
    ensures { result ≡ outcome_place outcome.now }
{
    match outcome {
        Outcome::Entry(..) => 0,
        Outcome::NoEntry(_, _, refusal) => entry_place(*refusal),
        Outcome::Grant(..) => 3,
        Outcome::Deny(..) => 4,
        Outcome::Short(..) => 5,
        Outcome::NoShort(..) => 6,
        Outcome::Place(..) => 7,
        Outcome::Lend(..) => 8,
        Outcome::NoLend(..) => 9,
        Outcome::Hand(..) => 10,
        Outcome::Have(..) => 11,
        Outcome::Gone(..) => 12,
        Outcome::Switch(..) => 13,
        Outcome::NoSwitch(..) => 14,
        Outcome::Turned(..) => 15,
        Outcome::NoTurn(..) => 16,
        Outcome::Closed(..) => 17,
        Outcome::Opened(..) => 18,
        Outcome::AlarmStray(..) => 19,
        Outcome::AlarmAhead(..) => 20,
        Outcome::AlarmSilent(..) => 21,
        Outcome::Halted(..) => 22,
        Outcome::Restart(..) => 23,
        Outcome::Answer(..) => 24,
        Outcome::Moved(..) => 25,
        Outcome::Derailed(..) => 26,
        Outcome::Noise(_, fault) => noise_place(*fault),
    }
}

/// A list of values.
fn list(values: &[u64]) -> OutcomeValues
    requires { length values.now ≤ 8 }
    ensures { result.items ≡ values.now }
{
    let mut out: OutcomeValues = ArrayVec::new();
    let _ = out.try_extend_from_slice(values);
    out
}

/// The values of a refused entry.
#[tactic(auto, unfolding(crate::specs::Fits::FitAt, definitions::specs::OutcomeText::outcome_forms, text_forms::specs::Forms::Fit, text_forms::specs::Forms::PartFits))]
fn entry_values(zone: ZoneId, train: TrainId, refusal: Refusal) -> OutcomeValues
    ensures is { result.items ≡ outcome_values (Outcome.NoEntry zone train refusal) }
    ensures fit { FitOutcome (Outcome.NoEntry zone train refusal) }
{
    let (z, t) = (zone.0 as u64, train.0 as u64);
    match refusal {
        Refusal::Known => list(&[z, t, 0]),
        Refusal::TooMany => list(&[z, t, 1]),
        Refusal::TooLong => list(&[z, t, 2]),
        Refusal::Held(other) => list(&[z, t, 0, other.0 as u64]),
        Refusal::NotFree(section) => list(&[z, t, 1, section.0 as u64]),
    }
}

/// The values of a switch that is not commanded.
#[tactic(auto, unfolding(crate::specs::Fits::FitAt, definitions::specs::OutcomeText::outcome_forms, text_forms::specs::Forms::Fit, text_forms::specs::Forms::PartFits))]
fn switch_values(zone: ZoneId, switch: SwitchId, bar: SwitchObstacle) -> OutcomeValues
    ensures is { result.items ≡ outcome_values (Outcome.NoSwitch zone switch bar) }
    ensures fit { FitOutcome (Outcome.NoSwitch zone switch bar) }
{
    let (z, w) = (zone.0 as u64, switch.0 as u64);
    match bar {
        SwitchObstacle::Held(train) => list(&[z, w, 0, train.0 as u64]),
        SwitchObstacle::Section(section) => list(&[z, w, 1, section.0 as u64]),
    }
}

/// The values of bytes that are no frame.
#[tactic(auto, unfolding(crate::specs::Fits::FitAt, definitions::specs::OutcomeText::outcome_forms, text_forms::specs::Forms::Fit, text_forms::specs::Forms::PartFits))]
fn noise_values(to: u8, fault: FrameFault) -> OutcomeValues
    ensures is { result.items ≡ outcome_values (Outcome.Noise to fault) }
    ensures fit { FitOutcome (Outcome.Noise to fault) }
{
    let to = to as u64;
    match fault {
        FrameFault::Short => list(&[to, 0]),
        FrameFault::Version => list(&[to, 1]),
        FrameFault::Kind => list(&[to, 2]),
        FrameFault::Long => list(&[to, 3]),
        FrameFault::Field(at) => list(&[to, 0, at as u64]),
    }
}

/// The values of an outcome.
#[tactic(auto, unfolding(crate::specs::Fits::FitAt, definitions::specs::OutcomeText::outcome_forms, text_forms::specs::Forms::Fit, text_forms::specs::Forms::PartFits))]
pub(crate) fn values_of(outcome: &Outcome) -> OutcomeValues
    ensures is { result.items ≡ outcome_values outcome.now }
    ensures fit { FitOutcome outcome.now }
{
    match *outcome {
        Outcome::Entry(z, t, n) => list(&[z.0 as u64, t.0 as u64, n as u64]),
        Outcome::NoEntry(z, t, refusal) => entry_values(z, t, refusal),
        Outcome::Grant(z, t, n, at, to, obstacle) | Outcome::Lend(z, t, n, at, to, obstacle) => {
            list(&[
                z.0 as u64,
                t.0 as u64,
                n as u64,
                at.seg.0 as u64,
                sign_of(at.dir),
                to as u64,
                code_of(obstacle),
            ])
        }
        Outcome::Deny(z, t, obstacle) | Outcome::NoLend(z, t, obstacle) => {
            list(&[z.0 as u64, t.0 as u64, code_of(obstacle)])
        }
        Outcome::Short(z, t, n, at, to) => list(&[
            z.0 as u64,
            t.0 as u64,
            n as u64,
            at.seg.0 as u64,
            sign_of(at.dir),
            to as u64,
        ]),
        Outcome::NoShort(z, t, refusal) => { list(&[z.0 as u64, t.0 as u64, short_value(refusal)]) }
        Outcome::Place(z, t, rear, rear_off, front, front_off) => list(&[
            z.0 as u64,
            t.0 as u64,
            rear.seg.0 as u64,
            sign_of(rear.dir),
            rear_off as u64,
            front.seg.0 as u64,
            sign_of(front.dir),
            front_off as u64,
        ]),
        Outcome::Hand(z, t, epoch, to) => {
            list(&[z.0 as u64, t.0 as u64, epoch as u64, to.0 as u64])
        }
        Outcome::Have(z, t, epoch) => list(&[z.0 as u64, t.0 as u64, epoch as u64]),
        Outcome::Gone(z, t) | Outcome::AlarmSilent(z, t) => list(&[z.0 as u64, t.0 as u64]),
        Outcome::Switch(z, w, n, position) => list(&[
            z.0 as u64,
            w.0 as u64,
            n as u64,
            position_value(position),
        ]),
        Outcome::NoSwitch(z, w, bar) => switch_values(z, w, bar),
        Outcome::Turned(z, b, dir) => list(&[z.0 as u64, b.0 as u64, sign_of(dir)]),
        Outcome::NoTurn(z, b, t) => list(&[z.0 as u64, b.0 as u64, t.0 as u64]),
        Outcome::Closed(z, s) | Outcome::Opened(z, s) => list(&[z.0 as u64, s.0 as u64]),
        Outcome::AlarmStray(z, d) => list(&[z.0 as u64, d.0 as u64]),
        Outcome::AlarmAhead(z, d, t) => list(&[z.0 as u64, d.0 as u64, t.0 as u64]),
        Outcome::Halted(z) | Outcome::Restart(z) => list(&[z.0 as u64]),
        Outcome::Answer(t, n, word) => list(&[t.0 as u64, n as u64, answer_value(word)]),
        Outcome::Moved(w, n, position) => {
            list(&[w.0 as u64, n as u64, position_value(position)])
        }
        Outcome::Derailed(t) => list(&[t.0 as u64]),
        Outcome::Noise(to, fault) => noise_values(to, fault),
    }
}

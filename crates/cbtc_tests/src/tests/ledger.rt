//! What a ledger answers to calls in a row, worked out by hand.
ghost use Rattle.authority_ledger.specs.Ledger.{IsLedger};

use crate::rows::numbers;
use authority_ledger::Answered::{Noted, Old, Shrunk, Stays};
use authority_ledger::{Answered, Ledger, Pending};
use std::process::Abort;

/// Calls in a row, of the first ledger: the call with its number, its end or its mm; the number or the end that it answers, else 0;
/// the last number and the greatest answered after it; the number and the end of the shrink that waits, else 0 and 0; and what it
/// answers.
const FIRST: &str = "taken 2 0 1 0 0 0 old
shorter 70 2 2 0 2 70 issued
taken 1 0 2 1 2 70 noted
taken 2 70 2 2 0 0 shrunk";

/// The same of a ledger whose last number is 6, which is answered. A shrink that is taken, one that is refused, answers to numbers
/// before, at and past that of a shrink, and ways that go on.
const AFTER_SIX: &str = "shorter 500 7 7 6 7 500 issued
longer 0 7 7 6 7 500 waits
taken 7 500 7 7 0 0 shrunk
longer 0 8 8 7 0 0 issued
taken 7 0 8 7 0 0 old
taken 9 0 8 7 0 0 old
refused 8 0 8 8 0 0 noted
refused 0 0 8 8 0 0 old
taken 8 0 8 8 0 0 old
shorter 300 9 9 8 9 300 issued
refused 9 0 9 9 0 0 stays
taken 9 0 9 9 0 0 old
longer 0 10 10 9 0 0 issued
longer 0 11 11 9 0 0 issued
shorter 900 12 12 9 12 900 issued
refused 10 0 12 10 12 900 noted
shorter 800 12 12 10 12 900 waits
shift 250 0 12 10 12 650 shifted
taken 13 0 12 10 12 650 old
shift 650 0 12 10 12 0 shifted
taken 11 0 12 11 12 0 noted
taken 12 0 12 12 0 0 shrunk
shift 4000000000 0 12 12 0 0 shifted
longer 0 13 13 12 0 0 issued
longer 0 14 14 12 0 0 issued
taken 14 0 14 14 0 0 noted";

/// What a call that issues answers.
fn issued(answer: Result<u32, Pending>) -> (&'static str, u32) {
    match answer {
        Ok(number) => ("issued", number),
        Err(Pending(number)) => ("waits", number),
    }
}

/// What an answer comes to.
fn answered(answer: Answered) -> (&'static str, u32) {
    match answer {
        Old => ("old", 0),
        Noted => ("noted", 0),
        Shrunk(end) => ("shrunk", end),
        Stays => ("stays", 0),
    }
}

/// What a call answers; none where the number would be past the last of all, or the way would move past the end of a shrink.
fn call_ledger(ledger: &mut Ledger, call: &str, argument: u32) -> Option<(&'static str, u32)>
    requires { IsLedger ledger.old }
    ensures { IsLedger ledger.new }
{
    match call {
        "longer" if ledger.last() < u32::MAX => Some(issued(ledger.issue_longer())),
        "shorter" if ledger.last() < u32::MAX => Some(issued(ledger.issue_shorter(argument))),
        "taken" => Some(answered(ledger.answer(argument, true))),
        "refused" => Some(answered(ledger.answer(argument, false))),
        "shift" => {
            if let Some((_, end)) = ledger.pending()
                && argument > end
            {
                return None;
            }
            ledger.shift(argument);
            Some(("shifted", 0))
        }
        _ => None,
    }
}

/// Whether the row's call answers so, and leaves the ledger so.
fn holds(ledger: &mut Ledger, row: &str) -> bool
    requires { IsLedger ledger.old }
    ensures { IsLedger ledger.new }
{
    let Some((call, rest)) = row.split_once(' ') else {
        return false;
    };
    let row_numbers = numbers(rest);
    let [argument, number, last, greatest, shrink, end] = row_numbers.as_slice() else {
        return false;
    };
    let Some((word, found)) = call_ledger(ledger, call, *argument) else {
        return false;
    };
    row.ends_with(word)
        && found == *number
        && ledger.last() == *last
        && ledger.answered() == *greatest
        && ledger.pending().unwrap_or((0, 0)) == (*shrink, *end)
}

/// A ledger that its condition holds of answers the rows in a row.
fn try_rows(rt: &impl Abort, first: Ledger, rows: &str)
    requires { IsLedger first }
{
    let mut ledger = first;
    for row in rows.split('\n') {
        assert!(rt; holds(&mut ledger, row), "{row}");
    }
}

#[test]
fn a_ledger_answers_calls_in_a_row(rt: HostRuntime) {
    try_rows(&rt, Ledger::first(), FIRST);
    try_rows(&rt, Ledger::restore(6, 6, None), AFTER_SIX);
}

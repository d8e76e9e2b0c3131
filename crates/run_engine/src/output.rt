//! Text on its way to the sink, in pieces.
ghost use Rattle.std.specs.Prelude.{◌≡◌, [], OnOk};
ghost use Rattle.edge_io.specs.Writing.{Wrote};
ghost use Rattle.definitions.specs.Endings.{outcomes_text};
ghost use Rattle.definitions.specs.OutcomeText.{outcome_text};
ghost use Rattle.run_engine.specs.Reads.{again_by, text_by};
ghost use Rattle.run_engine.specs.Sends.{Sends, GivesUp};

use crate::reads::Reads;
use definitions::outcome::Outcome;
use edge_io::buffer::TextBuffer;
use edge_io::stream::Sink;
use edge_io::writing::{WriteFault, write_text};
use outcome_text::write_outcome;

/// So many bytes of text wait at most before they go to the sink.
const PIECE: usize = 65_536;

/// The room for what waits: a piece, and the outcome line that fills it.
pub const ROOM: usize = 69_632;

/// Why a document was given up.
#[derive(Clone, Copy)]
pub enum Fault {
    /// The sink failed.
    Write,

    /// Memory was wanting.
    Memory,
}

/// Writes what is pending, in one call where the sink takes it whole. Nothing is pending after it.
pub fn flush<K: Sink>(pending: &mut TextBuffer, sink: &mut K) -> Result<(), WriteFault>
    ensures wrote { Wrote K.written K.faults sink.old sink.new pending.old.text result }
    ensures none { OnOk result (pending.new.text ≡ []) }
{
    match write_text(sink, pending.as_slice()) {
        Ok(()) => {
            pending.clear();
            Ok(())
        }
        Err(fault) => Err(fault),
    }
}

/// Writes what is pending where it is a piece.
fn flush_full<K: Sink>(pending: &mut TextBuffer, sink: &mut K) -> Result<(), Fault>
    ensures { Sends K.written K.faults sink.old sink.new pending.old.text pending.new.text [] result }
{
    if pending.len() < PIECE {
        return Ok(());
    }
    match flush(pending, sink) {
        Ok(()) => Ok(()),
        Err(_) => Err(Fault::Write),
    }
}

/// Sends a text.
fn send_text<K: Sink>(text: &[u8], pending: &mut TextBuffer, sink: &mut K) -> Result<(), Fault>
    ensures { Sends K.written K.faults sink.old sink.new pending.old.text pending.new.text text.now result }
{
    match write_text(pending, text) {
        Ok(()) => flush_full(pending, sink),
        Err(_) => Err(Fault::Memory),
    }
}

/// Sends an outcome line.
fn send_line<K: Sink>(
    outcome: &Outcome,
    pending: &mut TextBuffer,
    sink: &mut K,
) -> Result<(), Fault>
    ensures { Sends K.written K.faults sink.old sink.new pending.old.text pending.new.text (outcome_text outcome.now) result }
{
    match write_outcome(outcome, pending) {
        Ok(()) => flush_full(pending, sink),
        Err(_) => Err(Fault::Memory),
    }
}

/// Sends outcome lines, one after the other.
fn send_lines<K: Sink>(
    lines: &[Outcome],
    pending: &mut TextBuffer,
    sink: &mut K,
) -> Result<(), Fault>
    ensures { Sends K.written K.faults sink.old sink.new pending.old.text pending.new.text (outcomes_text lines.now) result }
{
    for outcome in lines {
        match send_line(outcome, pending, sink) {
            Ok(()) => {}
            Err(fault) => return Err(fault),
        }
    }
    Ok(())
}

/// Sends a text line again, where it is written again.
fn send_again<K: Sink>(
    reads: Reads,
    text: &[u8],
    pending: &mut TextBuffer,
    sink: &mut K,
) -> Result<(), Fault>
    ensures { Sends K.written K.faults sink.old sink.new pending.old.text pending.new.text (again_by reads text.now) result }
{
    match reads {
        Reads::Again => match send_text(text, pending, sink) {
            Ok(()) => send_text(b"\n", pending, sink),
            Err(fault) => Err(fault),
        },
        Reads::On => Ok(()),
        Reads::Ends(_) => Ok(()),
    }
}

/// Sends what a text line gives: its outcome lines, and the text line again.
pub fn send_read<K: Sink>(
    reads: Reads,
    lines: &[Outcome],
    text: &[u8],
    pending: &mut TextBuffer,
    sink: &mut K,
) -> Result<(), Fault>
    ensures { Sends K.written K.faults sink.old sink.new pending.old.text pending.new.text (text_by reads lines.now text.now) result }
{
    match send_lines(lines, pending, sink) {
        Ok(()) => send_again(reads, text, pending, sink),
        Err(fault) => Err(fault),
    }
}

/// The fault of a document that is given up: where memory was wanting, what is pending is written all the same, and a sink
/// that fails there is the fault.
pub fn give_up<K: Sink>(fault: Fault, pending: &mut TextBuffer, sink: &mut K) -> Fault
    ensures { GivesUp K.written K.faults sink.old sink.new pending.old.text fault result }
{
    match fault {
        Fault::Write => Fault::Write,
        Fault::Memory => match flush(pending, sink) {
            Ok(()) => Fault::Memory,
            Err(_) => Fault::Write,
        },
    }
}

//! The top call.
ghost use Rattle.std.specs.Prelude.{◌≡◌, map, IfSome};
ghost use Rattle.document_laws.specs.Throughout.{SafeThroughout};
ghost use Rattle.std.specs.String.{string_bytes};
ghost use Rattle.top_call.specs.Running.{Causes, AtEnd};
ghost use Rattle.top_call.specs.Complete.{NeverMessages};
ghost use Rattle.top_call.specs.Commands.{command_of, answer_to, Answered, ReadCutUnder, CompleteUnder, RefusesUnder};

use crate::pump::{check, run};
use crate::usage::usage;
use definitions::document::Command;
use edge_io::status::Status;
use edge_io::stream::{Gate, Sink, Source};
use std::alloc::Global;

/// The command that words name, if they do.
fn command_of(words: &[String]) -> Option<Command>
    ensures { result ≡ command_of (map string_bytes words.now) }
{
    match words {
        [word] if word.as_str() == "run" => Some(Command::Run),
        [word] if word.as_str() == "check" => Some(Command::Check),
        _ => None,
    }
}

/// Runs the command that the words name.
pub fn cbtc_top<S: Source, K: Sink, G: Gate + Sync>(
    alloc: Global,
    words: &[String],
    src: &mut S,
    sink: &mut K,
    gate: &G,
) -> Status
    // Where what is to be given is known, it is given, or a front of it at a fault or want of memory.
    ensures answer { Answered result (answer_to (map string_bytes words.now) (S.left src.old)) (K.written sink.old) (K.written sink.new) }
    // At a fault of the source exactly what the whole text lines give that were read is written, where it tells its bytes.
    ensures read { ReadCutUnder (command_of (map string_bytes words.now)) result (S.left src.old) (S.left src.new) (K.written sink.old) (K.written sink.new) }
    // Done is answered only where the source's bytes were read to their end.
    ensures ended { result ≡ Status.Done → AtEnd (S.left src.new) }
    // A fault is answered only where that object's count rose in this call. Neither count falls.
    ensures causes { Causes result (S.faults src.old) (S.faults src.new) (K.faults sink.old) (K.faults sink.new) }
    // A run of a document of built forms that keeps to the rules and premises is done, with exactly its story, and a check of
    // one that is of the grammar and keeps to the rules with exactly its text lines, where no fault was counted; or memory
    // was wanting.
    ensures complete { CompleteUnder (command_of (map string_bytes words.now)) result (S.left src.old) (K.written sink.old) (K.written sink.new) (S.faults src.old) (S.faults src.new) (K.faults sink.old) (K.faults sink.new) }
    // A document that is refused at a text line, or because its line does not finish, gives exactly what stands before and that
    // ending, where no fault was counted; or memory was wanting: in a run the story, in a check the text lines.
    ensures refuses { RefusesUnder (command_of (map string_bytes words.now)) result (S.left src.old) (K.written sink.old) (K.written sink.new) (S.faults src.old) (S.faults src.new) (K.faults sink.old) (K.faults sink.new) }
    // The history that the bytes are is safe after each of its events, and each event added what it granted.
    ensures safe { IfSome (S.left src.old) SafeThroughout }
    // No last line tells of the limit on messages.
    ensures few { IfSome (S.left src.old) NeverMessages }
{
    let _ = gate;
    match command_of(words) {
        Some(Command::Run) => run(alloc, src, sink),
        Some(Command::Check) => check(alloc, src, sink),
        None => usage(sink),
    }
}

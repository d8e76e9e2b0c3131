//! A document from a source to a sink.
ghost use Rattle.std.specs.Prelude.{◌≡◌, ◌≤◌, false, OnOk, IfSome};
ghost use Rattle.definitions.specs.Trace.{is_over};
ghost use Rattle.byte_feed.specs.Feed.{opened};
ghost use Rattle.run_engine.specs.Feeding.{feed_shown, Within};
ghost use Rattle.document_laws.specs.Throughout.{SafeThroughout};
ghost use Rattle.top_call.specs.Complete.{Complete, CompleteCheck, RefusesDocument, RefusesChecked, NeverMessages};
ghost use Rattle.definitions.specs.declared.document.Command.TheVariants.{Run, Check};
ghost use Rattle.top_call.specs.Running.{AtEnd, AtStop, Midway, Pumped, PumpCauses, Ran, ReadCut, Causes, cut_of, status_of_cut};

use definitions::document::Command;
use edge_io::status::Status;
use edge_io::stream::{Got, Sink, Source};
use run_engine::feed::Feed;
use run_engine::output::Fault;
use run_engine::stage::status;
use std::alloc::Global;

/// What cut a run short.
#[derive(Clone, Copy)]
pub enum Cut {
    Read,
    Write,
    Memory,
}

fn cut_by(fault: Fault) -> Cut
    ensures { result ≡ cut_of fault }
{
    match fault {
        Fault::Write => Cut::Write,
        Fault::Memory => Cut::Memory,
    }
}

fn cut_status(cut: Cut) -> Status
    ensures { result ≡ status_of_cut cut }
{
    match cut {
        Cut::Read => Status::Read,
        Cut::Write => Status::Write,
        Cut::Memory => Status::Memory,
    }
}

/// Feeds all that the source has left, up to the text line that gives an answer.
fn pump<S: Source, K: Sink>(
    alloc: Global,
    feed: &mut Feed,
    src: &mut S,
    sink: &mut K,
) -> Result<(), Cut>
    requires within { Within (feed_shown feed.old) }
    requires on { is_over (feed_shown feed.old).reading.stage ≡ false }
    ensures pumped { Pumped (S.left src.old) (feed_shown feed.old) (feed_shown feed.new) (K.written sink.old) (K.written sink.new) result }
    ensures stop { AtStop result (Midway (S.left src.old) (S.left src.new) (feed_shown feed.old) (feed_shown feed.new) (K.written sink.old) (K.written sink.new)) }
    ensures causes { PumpCauses result (S.faults src.old) (S.faults src.new) (K.faults sink.old) (K.faults sink.new) }
    ensures within { OnOk result (Within (feed_shown feed.new)) }
    ensures ended { OnOk result (is_over (feed_shown feed.new).reading.stage ≡ false → AtEnd (S.left src.new)) }
{
    let mut buf = [0u8; 65536];
    for turn in 0..u64::MAX {
        match src.read(&mut buf) {
            Got::Bytes(n) => {
                let (piece, _) = buf.split_at(n);
                match feed.take(alloc, piece, sink) {
                    Ok(()) => {
                        if feed.is_over() {
                            return Ok(());
                        }
                    }
                    Err(fault) => return Err(cut_by(fault)),
                }
            }
            Got::End => return Ok(()),
            Got::Failed => return Err(Cut::Read),
        }
    }
    unreachable!()
}

/// Writes what the source's bytes give under a command, from their start.
fn run_from<S: Source, K: Sink>(
    alloc: Global,
    command: Command,
    feed: &mut Feed,
    src: &mut S,
    sink: &mut K,
) -> Status
    requires start { feed_shown feed.old ≡ opened (Rattle.definitions.specs.Trace.start command) }
    requires within { Within (feed_shown feed.old) }
    ensures ran { Ran command result (S.left src.old) (K.written sink.old) (K.written sink.new) }
    ensures read { ReadCut command result (S.left src.old) (S.left src.new) (K.written sink.old) (K.written sink.new) }
    ensures causes { Causes result (S.faults src.old) (S.faults src.new) (K.faults sink.old) (K.faults sink.new) }
    ensures ended { result ≡ Status.Done → AtEnd (S.left src.new) }
{
    match pump(alloc, feed, src, sink) {
        Ok(()) => match feed.end(alloc, sink) {
            Ok(ending) => status(&ending),
            Err(fault) => cut_status(cut_by(fault)),
        },
        Err(cut) => cut_status(cut),
    }
}

/// Writes what the source's bytes give under a command.
fn give<S: Source, K: Sink>(alloc: Global, command: Command, src: &mut S, sink: &mut K) -> Status
    ensures ran { Ran command result (S.left src.old) (K.written sink.old) (K.written sink.new) }
    ensures read { ReadCut command result (S.left src.old) (S.left src.new) (K.written sink.old) (K.written sink.new) }
    ensures causes { Causes result (S.faults src.old) (S.faults src.new) (K.faults sink.old) (K.faults sink.new) }
    ensures ended { result ≡ Status.Done → AtEnd (S.left src.new) }
{
    match Feed::start(alloc, command) {
        Ok(mut feed) => {
            let status = run_from(alloc, command, &mut feed, src, sink);
            feed.release();
            status
        }
        Err(_) => Status::Memory,
    }
}

/// Writes what a run of the source's bytes gives: the outcome lines of a document, and its last line.
#[tactic(auto, using(crate::proofs::All_safe::all_safe, crate::proofs::All_safe::no_messages))]
pub fn run<S: Source, K: Sink>(alloc: Global, src: &mut S, sink: &mut K) -> Status
    ensures ran { Ran Run result (S.left src.old) (K.written sink.old) (K.written sink.new) }
    ensures read { ReadCut Run result (S.left src.old) (S.left src.new) (K.written sink.old) (K.written sink.new) }
    ensures causes { Causes result (S.faults src.old) (S.faults src.new) (K.faults sink.old) (K.faults sink.new) }
    ensures ended { result ≡ Status.Done → AtEnd (S.left src.new) }
    ensures complete { Complete result (S.left src.old) (K.written sink.old) (K.written sink.new) (S.faults src.old) (S.faults src.new) (K.faults sink.old) (K.faults sink.new) }
    ensures refuses { RefusesDocument result (S.left src.old) (K.written sink.old) (K.written sink.new) (S.faults src.old) (S.faults src.new) (K.faults sink.old) (K.faults sink.new) }
    ensures safe { IfSome (S.left src.old) SafeThroughout }
    ensures few { IfSome (S.left src.old) NeverMessages }
{
    give(alloc, Command::Run, src, sink)
}

/// Writes what a check of the source's bytes gives: the document without comments and blank lines, and its last line.
#[tactic(auto, using(crate::proofs::All_safe::no_messages))]
pub fn check<S: Source, K: Sink>(alloc: Global, src: &mut S, sink: &mut K) -> Status
    ensures ran { Ran Check result (S.left src.old) (K.written sink.old) (K.written sink.new) }
    ensures read { ReadCut Check result (S.left src.old) (S.left src.new) (K.written sink.old) (K.written sink.new) }
    ensures causes { Causes result (S.faults src.old) (S.faults src.new) (K.faults sink.old) (K.faults sink.new) }
    ensures ended { result ≡ Status.Done → AtEnd (S.left src.new) }
    ensures complete { CompleteCheck result (S.left src.old) (K.written sink.old) (K.written sink.new) (S.faults src.old) (S.faults src.new) (K.faults sink.old) (K.faults sink.new) }
    ensures refuses { RefusesChecked result (S.left src.old) (K.written sink.old) (K.written sink.new) (S.faults src.old) (S.faults src.new) (K.faults sink.old) (K.faults sink.new) }
    ensures few { IfSome (S.left src.old) NeverMessages }
{
    give(alloc, Command::Check, src, sink)
}

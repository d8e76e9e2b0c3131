//! The answer to words that are no command.
ghost use Rattle.std.specs.Prelude.{◌≡◌};
ghost use Rattle.definitions.specs.declared.document.Ending.TheVariants.{Usage};
ghost use Rattle.definitions.specs.Trace.{ended};
ghost use Rattle.top_call.specs.Running.{Gave, Causes};

use definitions::document::Ending;
use edge_io::status::Status;
use edge_io::stream::Sink;
use outcome_text::write_ending;

/// Writes how the program is used.
pub fn usage<K: Sink>(sink: &mut K) -> Status
    ensures gave { Gave result (ended Usage) (K.written sink.old) (K.written sink.new) }
    ensures other { result ≡ Status.Done → ⊥ }
    ensures causes { Causes result 0 0 (K.faults sink.old) (K.faults sink.new) }
{
    match write_ending(&Ending::Usage, sink) {
        Ok(()) => Status::Usage,
        Err(_) => Status::Write,
    }
}

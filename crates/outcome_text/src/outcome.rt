//! Writing an outcome line.
ghost use Rattle.edge_io.specs.Writing.{Wrote};
ghost use Rattle.definitions.specs.OutcomeText.{outcome_text};

use crate::table::outcome_rows;
use crate::values::{place_of, values_of};
use definitions::outcome::Outcome;
use edge_io::stream::Sink;
use edge_io::writing::{WriteFault, write_text};
use form_codec::write::write_line;

/// Writes an outcome line with its end.
pub fn write_outcome<K: Sink>(outcome: &Outcome, sink: &mut K) -> Result<(), WriteFault>
    ensures { Wrote K.written K.faults sink.old sink.new (outcome_text outcome.now) result }
{
    let values = values_of(outcome);
    match write_line(outcome_rows(), place_of(outcome), values.as_slice(), sink) {
        Ok(()) => write_text(sink, b"\n"),
        Err(fault) => Err(fault),
    }
}

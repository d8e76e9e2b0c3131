//! Writing an event.
ghost use Rattle.std.specs.Prelude.{ℕ, List};
ghost use Rattle.edge_io.specs.Writing.{Wrote};
ghost use Rattle.definitions.specs.EventText.{SaysEvent};

use crate::table::event_rows;
use crate::values::{place_of, values_of};
use definitions::event::Event;
use edge_io::stream::Sink;
use edge_io::writing::WriteFault;
use form_codec::write::write_line;

/// Writes an event's spelling, without an end of line.
pub fn write_event<K: Sink>(event: &Event, sink: &mut K) -> Result<(), WriteFault>
    // It has one: an ask has a step, and a noise has a byte.
    requires { (text : List ℕ) × SaysEvent event.now text }
    ensures { (text : List ℕ) → SaysEvent event.now text → Wrote K.written K.faults sink.old sink.new text result }
{
    let values = values_of(event);
    write_line(event_rows(), place_of(event), values.as_slice(), sink)
}

//! Reading an event.
ghost use Rattle.std.specs.Prelude.{◌≡◌, ◌≤◌, ◌⊎◌, length, ℕ, IfOk, IfErr, Ok, Err};
ghost use Rattle.text_forms.specs.Forms.{IsText};
ghost use Rattle.text_forms.specs.Language.{IsRefused, most_bytes};
ghost use Rattle.definitions.specs.EventText.{event_forms, SaysEvent};
ghost use Rattle.definitions.specs.EventFields.{Stands, FieldRefused};
ghost use Rattle.definitions.specs.EventReading.{event_at};
ghost use Rattle.script_text.specs.Sees.{SeesEvent};
ghost use Rattle.script_text.specs.Trains.{numbers};

use crate::form::{event_form, put_event};
use crate::slice::Listed;
use arrayvec::ArrayVec;
use definitions::document::EventLine;
use definitions::event::Event;
use form_codec::fault::TextFault;
use form_codec::read::Values;
use line_map::Line;
use track_points::TrainId;

/// Reads an event from its text, without an end of line, where these trains are declared so far.
pub fn read_event(text: &[u8], line: &Line, trains: &[TrainId]) -> Result<Event, TextFault>
    // It answers what reading by the table and then the fields gives.
    ensures read { SeesEvent result (event_at line.now (numbers trains.now) text.now) }
    // The text is the spelling of the event that is read, and no field of it is refused.
    ensures said { IfOk result (λ x. SaysEvent x text.now × Stands line.now (numbers trains.now) x) }
    // The spelling of an event of which no field is refused is read as that event.
    ensures only { (x : Event) → SaysEvent x text.now → length text.now ≤ most_bytes → Stands line.now (numbers trains.now) x → result ≡ Ok x }
    // The column is one at which the events refuse the text, or that of the first field that is refused.
    ensures refused { IfErr result (λ fault. IsRefused (IsText event_forms) text.now fault.column ⊎ FieldRefused line.now (numbers trains.now) text.now fault.column) }
    // A text that is no event is refused, at its column.
    ensures column { (k : ℕ) → IsRefused (IsText event_forms) text.now k → result ≡ Err (record { column = k }) }
    // An event with a refused field is refused, at the column of the first.
    ensures field { (k : ℕ) → FieldRefused line.now (numbers trains.now) text.now k → result ≡ Err (record { column = k }) }
{
    let mut values: Values = ArrayVec::new();
    let mut says = EventLine::Passed;
    let declared = Listed { trains };
    match event_form(&mut values, text) {
        Ok(form) => match put_event(text, line, &declared, form, &values, &mut says) {
            Ok(()) => match says {
                EventLine::Event(event) => Ok(event),
                _ => unreachable!(),
            },
            Err(column) => Err(TextFault { column }),
        },
        Err(fault) => Err(fault),
    }
}

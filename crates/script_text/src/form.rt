//! The form of an event, and its fields.
ghost use Rattle.std.specs.Prelude.{◌≡◌, ◌≤◌, ℕ, length, IfOk, IfErr, Err};
ghost use Rattle.text_forms.specs.Forms.{Says, IsText};
ghost use Rattle.text_forms.specs.Language.{IsRefused, most_bytes};
ghost use Rattle.text_forms.specs.Reading.{form_at};
ghost use Rattle.form_codec.specs.Sees.{SeesForm};
ghost use Rattle.definitions.specs.EventText.{event_forms};
ghost use Rattle.definitions.specs.EventFields;
ghost use Rattle.definitions.specs.EventReading.{event_or};
ghost use Rattle.script_text.specs.Sees.{Makes};

use crate::columns::column_of;
use crate::fields::event_of;
use crate::table::event_rows;
use definitions::document::EventLine;
use definitions::trains::DeclaredTrains;
use form_codec::fault::TextFault;
use form_codec::read::{Values, read_line};
use line_map::Line;

/// Reads the form of an event and its values, by the table of events.
pub(crate) fn event_form(values: &mut Values, text: &[u8]) -> Result<usize, TextFault>
    ensures read { SeesForm values.new.items result (form_at event_forms text.now) }
    ensures said { IfOk result (λ i. Says event_forms i values.new.items text.now × (length text.now ≤ most_bytes)) }
    ensures refused { IfErr result (λ fault. IsRefused (IsText event_forms) text.now fault.column) }
    ensures column { (k : ℕ) → IsRefused (IsText event_forms) text.now k → result ≡ Err (record { column = k }) }
{
    read_line(event_rows(), values, text)
}

/// Puts the event of a form's values in its place, or answers the column of its first refused field.
pub(crate) fn put_event<T: DeclaredTrains>(
    text: &[u8],
    line: &Line,
    trains: &T,
    form: usize,
    values: &Values,
    says: &mut EventLine,
) -> Result<(), u32>
    requires says { Says event_forms form values.now.items text.now }
    requires short { length text.now ≤ most_bytes }
    ensures { Makes result says.new (event_or text.now (EventFields.event_of line.now (T.known trains.now) form values.now.items)) }
{
    match event_of(line, trains, form, values.as_slice(), says) {
        Ok(()) => Ok(()),
        Err(field) => Err(column_of(field, text)),
    }
}

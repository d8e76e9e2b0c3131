//! What a text line of the script says.
ghost use Rattle.std.specs.Prelude.{◌≡◌};
ghost use Rattle.text_forms.specs.Reading.{form_at};
ghost use Rattle.definitions.specs.EventFields;
ghost use Rattle.definitions.specs.EventReading;
ghost use Rattle.definitions.specs.EventText.{event_forms};
ghost use Rattle.definitions.specs.Grammar.{event_line_of};

use crate::form::{event_form, put_event};
use definitions::document::EventLine;
use definitions::trains::DeclaredTrains;
use form_codec::read::Values;
use line_map::Line;

/// Whether the values of a form of the table have no meaning yet.
fn is_unbuilt(form: usize, values: &[u64]) -> bool
    ensures { result ≡ EventFields.is_unbuilt form values.now }
{
    match form {
        0 => match values {
            [_, _, _, _, kind] => *kind == 1,
            _ => false,
        },
        1 | 2 | 3 | 4 | 7 | 8 | 9 | 10 | 13 | 16 | 17 | 20 | 21 | 22 => false,
        _ => true,
    }
}

/// What a text line says that is not passed over.
fn told<T: DeclaredTrains>(
    text: &[u8],
    line: &Line,
    trains: &T,
    values: &mut Values,
    says: &mut EventLine,
)
    ensures { says.new ≡ EventReading.told line.now (T.known trains.now) text.now (form_at event_forms text.now) }
{
    match event_form(values, text) {
        Ok(form) if is_unbuilt(form, values.as_slice()) => *says = EventLine::Unbuilt,
        Ok(form) => {
            if let Err(column) = put_event(text, line, trains, form, values, says) {
                *says = EventLine::Fault(column);
            }
        }
        Err(fault) => *says = EventLine::Fault(fault.column),
    }
}

/// What a text line of the script says, without its end of line, where these trains are declared so far. It is put in the place
/// of what was there, since an event is large; `values` is room for its values.
#[tactic(auto, unfolding(definitions::specs::Grammar::event_line_of))]
pub fn event_line<T: DeclaredTrains>(
    text: &[u8],
    line: &Line,
    trains: &T,
    values: &mut Values,
    says: &mut EventLine,
)
    ensures { says.new ≡ event_line_of line.now (T.known trains.now) text.now }
{
    match text {
        [] | [b'#', ..] => *says = EventLine::Passed,
        _ => told(text, line, trains, values, says),
    }
}

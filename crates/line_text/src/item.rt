//! Reading and writing an item.
ghost use Rattle.std.specs.Prelude.{◌≡◌, ℕ, List, IfOk, IfErr, Ok, Err};
ghost use Rattle.edge_io.specs.Writing.{Wrote};
ghost use Rattle.text_forms.specs.Language.{IsRefused};
ghost use Rattle.definitions.specs.ItemReading.{item_at};
ghost use Rattle.definitions.specs.ItemText.{SaysItem, IsItem};
ghost use Rattle.line_text.specs.Sees.{Sees};

use crate::table::item_rows;
use crate::values::{item_of, place_of, values_of};
use arrayvec::ArrayVec;
use definitions::line_item::LineItem;
use edge_io::stream::Sink;
use edge_io::writing::WriteFault;
use form_codec::fault::TextFault;
use form_codec::read::{Values, read_line};
use form_codec::write::write_line;

/// Reads a line item from its text; `values` is room for its values.
pub(crate) fn read_item(text: &[u8], values: &mut Values) -> Result<LineItem, TextFault>
    ensures read { Sees result (item_at text.now) }
    ensures said { IfOk result (λ x. SaysItem x text.now) }
    ensures only { (x : LineItem) → SaysItem x text.now → result ≡ Ok x }
    ensures refused { IfErr result (λ fault. IsRefused IsItem text.now fault.column) }
    ensures column { (k : ℕ) → IsRefused IsItem text.now k → result ≡ Err (record { column = k }) }
{
    match read_line(item_rows(), values, text) {
        Ok(form) => match item_of(form, values.as_slice()) {
            Some(item) => Ok(item),
            None => unreachable!(),
        },
        Err(fault) => Err(fault),
    }
}

/// Reads a line item from its text, without an end of line.
pub fn read_line_item(text: &[u8]) -> Result<LineItem, TextFault>
    // It answers what reading by the table of the items gives.
    ensures read { Sees result (item_at text.now) }
    // The text is the spelling of the item that is read.
    ensures said { IfOk result (λ x. SaysItem x text.now) }
    // The spelling of an item is read as that item.
    ensures only { (x : LineItem) → SaysItem x text.now → result ≡ Ok x }
    // The column is one at which the items refuse the text.
    ensures refused { IfErr result (λ fault. IsRefused IsItem text.now fault.column) }
    // A text that is no item is refused, at its column.
    ensures column { (k : ℕ) → IsRefused IsItem text.now k → result ≡ Err (record { column = k }) }
{
    let mut values: Values = ArrayVec::new();
    read_item(text, &mut values)
}

/// Writes an item's spelling, without an end of line.
pub fn write_item<K: Sink>(item: &LineItem, sink: &mut K) -> Result<(), WriteFault>
    // It has one: its numbers have at most 13 digits, and it has as many ranges or segments as an item can have.
    requires { (text : List ℕ) × SaysItem item.now text }
    ensures { (text : List ℕ) → SaysItem item.now text → Wrote K.written K.faults sink.old sink.new text result }
{
    let values = values_of(item);
    write_line(item_rows(), place_of(item), values.as_slice(), sink)
}

//! What a text line among the items says.
ghost use Rattle.std.specs.Prelude.{◌≡◌};
ghost use Rattle.definitions.specs.Grammar.{said_item, item_line_of};
ghost use Rattle.definitions.specs.ItemReading.{item_at};

use crate::item::read_item;
use definitions::document::ItemLine;
use form_codec::read::Values;

/// What a text line says that is not passed over and is no word.
fn item(text: &[u8], values: &mut Values) -> ItemLine
    ensures { result ≡ said_item (item_at text.now) }
{
    match read_item(text, values) {
        Ok(item) => match item.built() {
            Some(item) => ItemLine::Item(item),
            None => ItemLine::Unbuilt,
        },
        Err(fault) => ItemLine::Fault(fault.column),
    }
}

/// What a text line among the items says, without its end of line; `values` is room for its values.
#[tactic(auto, unfolding(definitions::specs::Grammar::item_line_of))]
pub fn item_line(text: &[u8], values: &mut Values) -> ItemLine
    ensures { result ≡ item_line_of text.now }
{
    match text {
        [] | [b'#', ..] => ItemLine::Passed,
        _ if text == b"script".as_slice() => ItemLine::Script,
        _ if text == b"plan".as_slice() => ItemLine::Plan,
        _ => item(text, values),
    }
}

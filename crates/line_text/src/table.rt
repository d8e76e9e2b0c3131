//! The table of the forms of line items.
ghost use Rattle.std.specs.Prelude.{◌≡◌};
ghost use Rattle.text_forms.specs.Rows.{forms};
ghost use Rattle.definitions.specs.ItemText.{item_forms};

use Part::{Colon, Number, Sign, Word};
use text_forms::part::{Part, Words};
use text_forms::row::Row;

/// The forms, by the places of the items.
#[tactic(auto, unfolding(definitions::specs::ItemText::item_forms))]
pub(crate) fn item_rows() -> &'static [Row]
    ensures { forms result.now ≡ item_forms }
{
    &[
        Row {
            word: b"zone",
            parts: &[Number],
            group: &[],
            least: 0,
            most: 0,
        },
        Row {
            word: b"segment",
            parts: &[Number, Number, Number],
            group: &[],
            least: 0,
            most: 0,
        },
        Row {
            word: b"joint",
            parts: &[Number, Sign, Number, Sign],
            group: &[],
            least: 0,
            most: 0,
        },
        Row {
            word: b"switch",
            parts: &[Number, Number, Sign, Number, Sign, Number, Sign, Number],
            group: &[],
            least: 0,
            most: 0,
        },
        Row {
            word: b"portal",
            parts: &[Number, Sign],
            group: &[],
            least: 0,
            most: 0,
        },
        Row {
            word: b"buffer",
            parts: &[Number, Sign],
            group: &[],
            least: 0,
            most: 0,
        },
        Row {
            word: b"section",
            parts: &[Number],
            group: &[Number, Colon, Colon],
            least: 1,
            most: 3,
        },
        Row {
            word: b"block",
            parts: &[Number, Word(Words::Direction)],
            group: &[Number],
            least: 1,
            most: 16,
        },
        Row {
            word: b"brake",
            parts: &[Number, Number, Number],
            group: &[],
            least: 0,
            most: 0,
        },
        Row {
            word: b"silent",
            parts: &[Number],
            group: &[],
            least: 0,
            most: 0,
        },
    ]
}

//! The table of the forms of events.
ghost use Rattle.std.specs.Prelude.{◌≡◌};
ghost use Rattle.text_forms.specs.Rows.{forms};
ghost use Rattle.definitions.specs.EventText.{event_forms};

use Part::{Byte, FirstByte, Number, Sign, Signed, Word};
use text_forms::part::{Part, Words};
use text_forms::row::Row;

/// The forms, by the places of the events.
#[tactic(auto, unfolding(definitions::specs::EventText::event_forms))]
pub(crate) fn event_rows() -> &'static [Row]
    ensures { forms result.now ≡ event_forms }
{
    &[
        Row {
            word: b"train",
            parts: &[Number, Number, Number, Number, Word(Words::Kind)],
            group: &[],
            least: 0,
            most: 0,
        },
        Row {
            word: b"entry",
            parts: &[Number, Number, Sign],
            group: &[],
            least: 0,
            most: 0,
        },
        Row {
            word: b"enter",
            parts: &[Number],
            group: &[],
            least: 0,
            most: 0,
        },
        Row {
            word: b"step",
            parts: &[Number],
            group: &[Number, Number],
            least: 0,
            most: 1023,
        },
        Row {
            word: b"report",
            parts: &[Number, Number, Number, Sign, Signed, Number],
            group: &[],
            least: 0,
            most: 0,
        },
        Row {
            word: b"detect",
            parts: &[Number, Word(Words::Occupancy)],
            group: &[],
            least: 0,
            most: 0,
        },
        Row {
            word: b"scan",
            parts: &[],
            group: &[],
            least: 0,
            most: 0,
        },
        Row {
            word: b"time",
            parts: &[Number, Number],
            group: &[],
            least: 0,
            most: 0,
        },
        Row {
            word: b"ask",
            parts: &[Number, Number, Number],
            group: &[Sign, Number],
            least: 1,
            most: 24,
        },
        Row {
            word: b"order close",
            parts: &[Number],
            group: &[],
            least: 0,
            most: 0,
        },
        Row {
            word: b"order open",
            parts: &[Number],
            group: &[],
            least: 0,
            most: 0,
        },
        Row {
            word: b"order turn",
            parts: &[Number, Word(Words::Direction)],
            group: &[],
            least: 0,
            most: 0,
        },
        Row {
            word: b"order set",
            parts: &[Number, Word(Words::Position)],
            group: &[],
            least: 0,
            most: 0,
        },
        Row {
            word: b"order short",
            parts: &[Number, Number, Number, Sign, Signed],
            group: &[],
            least: 0,
            most: 0,
        },
        Row {
            word: b"echo",
            parts: &[Number],
            group: &[],
            least: 0,
            most: 0,
        },
        Row {
            word: b"leave",
            parts: &[Number],
            group: &[],
            least: 0,
            most: 0,
        },
        Row {
            word: b"take",
            parts: &[Number, Number, Number],
            group: &[],
            least: 0,
            most: 0,
        },
        Row {
            word: b"deliver",
            parts: &[Number],
            group: &[],
            least: 0,
            most: 0,
        },
        Row {
            word: b"restart",
            parts: &[Number],
            group: &[],
            least: 0,
            most: 0,
        },
        Row {
            word: b"keepfail",
            parts: &[Number, Word(Words::KeepFault)],
            group: &[],
            least: 0,
            most: 0,
        },
        Row {
            word: b"noise",
            parts: &[Number, Number, FirstByte],
            group: &[Byte],
            least: 0,
            most: 127,
        },
        Row {
            word: b"round",
            parts: &[Number],
            group: &[],
            least: 0,
            most: 0,
        },
        Row {
            word: b"lost",
            parts: &[Number, Number, Number],
            group: &[],
            least: 0,
            most: 0,
        },
    ]
}

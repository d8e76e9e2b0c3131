//! The table of the forms of outcome lines.
ghost use Rattle.std.specs.Prelude.{◌≡◌};
ghost use Rattle.text_forms.specs.Rows.{forms};
ghost use Rattle.definitions.specs.OutcomeText.{outcome_forms};

use Part::{Number, Sign, Word};
use text_forms::part::{Part, Words};
use text_forms::row::Row;

/// The forms, by the places of the outcomes.
#[tactic(auto, unfolding(definitions::specs::OutcomeText::outcome_forms))]
pub(crate) fn outcome_rows() -> &'static [Row]
    ensures { forms result.now ≡ outcome_forms }
{
    &[
        Row {
            word: b"entry",
            parts: &[Number, Number, Number],
            group: &[],
            least: 0,
            most: 0,
        },
        Row {
            word: b"noentry",
            parts: &[Number, Number, Word(Words::EntryRefusal)],
            group: &[],
            least: 0,
            most: 0,
        },
        Row {
            word: b"noentry",
            parts: &[Number, Number, Word(Words::EntryObstacle), Number],
            group: &[],
            least: 0,
            most: 0,
        },
        Row {
            word: b"grant",
            parts: &[Number, Number, Number, Number, Sign, Number, Number],
            group: &[],
            least: 0,
            most: 0,
        },
        Row {
            word: b"deny",
            parts: &[Number, Number, Number],
            group: &[],
            least: 0,
            most: 0,
        },
        Row {
            word: b"short",
            parts: &[Number, Number, Number, Number, Sign, Number],
            group: &[],
            least: 0,
            most: 0,
        },
        Row {
            word: b"noshort",
            parts: &[Number, Number, Word(Words::ShortRefusal)],
            group: &[],
            least: 0,
            most: 0,
        },
        Row {
            word: b"place",
            parts: &[Number, Number, Number, Sign, Number, Number, Sign, Number],
            group: &[],
            least: 0,
            most: 0,
        },
        Row {
            word: b"lend",
            parts: &[Number, Number, Number, Number, Sign, Number, Number],
            group: &[],
            least: 0,
            most: 0,
        },
        Row {
            word: b"nolend",
            parts: &[Number, Number, Number],
            group: &[],
            least: 0,
            most: 0,
        },
        Row {
            word: b"hand",
            parts: &[Number, Number, Number, Number],
            group: &[],
            least: 0,
            most: 0,
        },
        Row {
            word: b"have",
            parts: &[Number, Number, Number],
            group: &[],
            least: 0,
            most: 0,
        },
        Row {
            word: b"gone",
            parts: &[Number, Number],
            group: &[],
            least: 0,
            most: 0,
        },
        Row {
            word: b"switch",
            parts: &[Number, Number, Number, Word(Words::Position)],
            group: &[],
            least: 0,
            most: 0,
        },
        Row {
            word: b"noswitch",
            parts: &[Number, Number, Word(Words::SwitchObstacle), Number],
            group: &[],
            least: 0,
            most: 0,
        },
        Row {
            word: b"turned",
            parts: &[Number, Number, Word(Words::Direction)],
            group: &[],
            least: 0,
            most: 0,
        },
        Row {
            word: b"noturn",
            parts: &[Number, Number, Number],
            group: &[],
            least: 0,
            most: 0,
        },
        Row {
            word: b"closed",
            parts: &[Number, Number],
            group: &[],
            least: 0,
            most: 0,
        },
        Row {
            word: b"opened",
            parts: &[Number, Number],
            group: &[],
            least: 0,
            most: 0,
        },
        Row {
            word: b"alarm stray",
            parts: &[Number, Number],
            group: &[],
            least: 0,
            most: 0,
        },
        Row {
            word: b"alarm ahead",
            parts: &[Number, Number, Number],
            group: &[],
            least: 0,
            most: 0,
        },
        Row {
            word: b"alarm silent",
            parts: &[Number, Number],
            group: &[],
            least: 0,
            most: 0,
        },
        Row {
            word: b"halted",
            parts: &[Number],
            group: &[],
            least: 0,
            most: 0,
        },
        Row {
            word: b"restart",
            parts: &[Number],
            group: &[],
            least: 0,
            most: 0,
        },
        Row {
            word: b"answer",
            parts: &[Number, Number, Word(Words::Answer)],
            group: &[],
            least: 0,
            most: 0,
        },
        Row {
            word: b"moved",
            parts: &[Number, Number, Word(Words::Position)],
            group: &[],
            least: 0,
            most: 0,
        },
        Row {
            word: b"derailed",
            parts: &[Number],
            group: &[],
            least: 0,
            most: 0,
        },
        Row {
            word: b"noise",
            parts: &[Number, Word(Words::FrameFault)],
            group: &[],
            least: 0,
            most: 0,
        },
        Row {
            word: b"noise",
            parts: &[Number, Word(Words::FieldFault), Number],
            group: &[],
            least: 0,
            most: 0,
        },
    ]
}

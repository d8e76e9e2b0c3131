//! Laws of whole documents: what holds after each text line, and what a whole document gives.
#![tactic(auto)]

ghost use Rattle.std.specs.Prelude.{◌≡◌, ℕ, List, [], false};
ghost use Rattle.definitions.specs.declared.item.Item.{Item};
ghost use Rattle.definitions.specs.declared.event.Event.{Event};
ghost use Rattle.definitions.specs.declared.document.Command.{Command};
ghost use Rattle.definitions.specs.declared.document.Command.TheVariants.{Run, Check};
ghost use Rattle.definitions.specs.declared.document.Ending.TheVariants.{Messages};
ghost use Rattle.definitions.specs.Trace.{trace};
ghost use Rattle.document_laws.specs.Whole.{IsDocument, IsDocumentWithoutScript, IsCheckable, whole, checked, refuses};

/// A document of items, the word and events, when it is run, gives the outcome lines of its history, in which a delivery is
/// its takes, and how many events it says.
pub fn document_gives()
    ensures { (bytes : List ℕ) (items : List Item) (events : List Event) → IsDocument bytes items events → trace Run bytes ≡ whole items events }
{}

/// A document of items alone, when it is run, gives no outcome line, and ends as done with no events.
#[tactic(auto, using(crate::proofs::Whole::document_gives_nothing))]
pub fn document_gives_nothing()
    ensures { (bytes : List ℕ) (items : List Item) → IsDocumentWithoutScript bytes items → trace Run bytes ≡ whole items [] }
{}

/// A document of items, the word and events, when it is checked, is written again without comments and blank lines, and ends
/// as done with its number of events.
pub fn checkable_gives()
    ensures { (bytes : List ℕ) (items : List Item) (events : List Event) → IsCheckable bytes items events → trace Check bytes ≡ checked bytes events }
{}

/// A document of items alone is written again too, and ends as done with no events.
pub fn checkable_gives_items()
    ensures { (bytes : List ℕ) (items : List Item) → IsDocumentWithoutScript bytes items → trace Check bytes ≡ checked bytes [] }
{}

/// No text line of a document is refused: it breaks no rule and no premise, its form is built, and it passes no limit.
pub fn never_premise()
    ensures { (bytes : List ℕ) (items : List Item) (events : List Event) → IsDocument bytes items events → refuses (trace Run bytes).ending ≡ false }
{}

/// No document, whatever its bytes are, meets the limit on messages: that on events comes first.
#[tactic(auto, using(crate::proofs::Other_ending::never_messages))]
pub fn never_messages()
    ensures { (c : Command) (bytes : List ℕ) → (trace c bytes).ending ≡ Messages → ⊥ }
{}

//! Laws over the definitions, each the contract of a function that does nothing.
ghost use Rattle.std.specs.Prelude.{◌≡◌, ◌++◌, ℕ, [], Bool, false, List, Result};
ghost use Rattle.btx_bib.specs.declared.grammar.slip.SyntaxError.{SyntaxError};
ghost use Rattle.btx_bib.specs.language.Grammar.Fields.{Field, field_at};
ghost use Rattle.btx_bib.specs.laws.Grammar.Spelling.{FieldSpelling, Splits, ValueSpelling, read_as};
ghost use Rattle.btx_bib.specs.laws.Grammar.ItemEvents.{IsNew, GivesEvents, read_events};
ghost use Rattle.btx_bib.specs.language.Grammar.Items.{Event, Placed, behind_at, events_from, head_at};
ghost use Rattle.btx_bib.specs.laws.Grammar.Items.{by_history};
ghost use Rattle.btx_bib.specs.laws.Grammar.Reading.{IsReading};
ghost use Rattle.btx_bib.specs.declared.grammar.commands.Expected.TheVariants as wanted;
ghost use Rattle.btx_bib.specs.language.Grammar.Values.{Part, value_at};
ghost use Rattle.btx_bib.specs.laws.Grammar.WholeItems.{WholeItem, ItemHere, whole_item_at};

/// Each text has exactly one front that spells a value, or at whose end a value is wrong.
pub fn one_value()
    ensures spells { (text : List ℕ) → Splits ValueSpelling text (value_at text) }
    ensures only { (outcome : Result (List Part) SyntaxError) (front rest : List ℕ) →
        ValueSpelling outcome front rest → value_at (front ++ rest) ≡ read_as outcome rest }
{}

/// Each text has exactly one front that spells a field, or at whose end a field is wrong.
pub fn one_field()
    ensures spells { (text : List ℕ) → Splits FieldSpelling text (field_at text) }
    ensures only { (outcome : Result Field SyntaxError) (front rest : List ℕ) →
        FieldSpelling outcome front rest → field_at (front ++ rest) ≡ read_as outcome rest }
{}

/// After each `@` exactly one item is spelled by exactly one front of the text, or exactly one thing is wrong at exactly one place.
pub fn one_item()
    ensures spells { (text : List ℕ) → Splits ItemHere text (whole_item_at text) }
    ensures only { (outcome : Result WholeItem SyntaxError) (front rest : List ℕ) →
        ItemHere outcome front rest → whole_item_at (front ++ rest) ≡ read_as outcome rest }
{}

/// Each text has exactly one reading, however the events before say which keys are stored: a list of what stands in it and of what
/// is wrong, each spelled by its front of what is left.
pub fn one_reading()
    ensures reads { (is_stored : List Event → List ℕ → Bool) (text : List ℕ) →
        IsReading (by_history is_stored) [] wanted.Item text (events_from (by_history is_stored) [] wanted.Item text) }
    ensures only { (is_stored : List Event → List ℕ → Bool) (text : List ℕ) (events : List Placed) →
        IsReading (by_history is_stored) [] wanted.Item text events → events ≡ events_from (by_history is_stored) [] wanted.Item text }
{}

/// The events of a text are those of the item after its first `@` and of the rest after it, or those before the fault that is met in
/// that item, the fault, and those from its place on. (An entry whose key is stored is a fault by itself.)
pub fn items_are_read_so()
    ensures { (is_stored : List Event → List ℕ → Bool) (before : List Event) (text behind : List ℕ) →
        behind_at text ≡ Some behind → IsNew (is_stored before) (head_at behind) →
        GivesEvents (by_history is_stored) before wanted.Item text (read_events (whole_item_at behind)) }
{}

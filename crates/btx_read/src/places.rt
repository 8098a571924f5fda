//! Where a record begins.
ghost use Rattle.std.specs.Prelude.{◌≡◌, ◌+◌, ◌-◌, ◌≤◌, ◌∷◌, length, drop, unwrap_or, [], suc};
ghost use Rattle.btx_bib.specs.declared.grammar.byte_sets.ByteSet.TheVariants.{Gap};
ghost use Rattle.btx_bib.specs.language.Grammar.ByteSets.{is_gap, longest_run_len};
ghost use Rattle.btx_bib.specs.refinement.Grammar.EventViews.{event_view};
ghost use Rattle.btx_read.specs.Records.{left_at, left_at_field, left_at_item};

use btx_bib::grammar::events::Event;
use btx_text::classify::is_white;
use memchr::memchr;

// Whether a byte is whitespace or the end of a line.
fn is_gap(byte: u8) -> bool
    ensures { result ≡ is_gap byte }
{
    is_white(byte) || byte == b'\n'
}

// How many bytes of whitespace a text begins with.
#[tactic(auto, using(btx_bib::proofs::GrammarLemmas::RunLemmas::run_steps))]
fn gap_len(text: &[u8]) -> usize
    ensures value { result ≡ longest_run_len Gap text.now }
    ensures bound { result ≤ length text.now }
{
    for (place, &byte) in text.iter().enumerate() {
        if !is_gap(byte) {
            return place;
        }
    }
    text.len()
}

// How many bytes of a text are left from its first `@` on; 1 if it has none.
#[tactic(auto, using(btx_bib::proofs::GrammarLemmas::ItemLemmas::at_steps))]
fn left_at_item(before: &[u8]) -> usize
    ensures { result ≡ left_at_item before.now }
{
    match memchr(b'@', before) {
        Some(place) => before.len() - place,
        None => 1,
    }
}

/// How many bytes of a text are left from a field's name on, which whitespace, a comma and whitespace stand before.
pub(crate) fn left_at_field(before: &[u8]) -> usize
    ensures { result ≡ left_at_field before.now }
{
    let comma = &before[gap_len(before)..];
    let Some((_, after)) = comma.split_first() else {
        return 0;
    };
    after.len() - gap_len(after)
}

/// How many bytes of a text are left from the first byte of an event on, where `before` is the text after the event before it and `rest` that after it.
pub(crate) fn left_at(event: &Event<'_>, before: &[u8], rest: &[u8]) -> usize
    ensures { result ≡ left_at (event_view event.now) before.now (length rest.now) }
{
    match event {
        Event::Comment | Event::Preamble(_) | Event::Definition(_, _) | Event::Entry(_, _) => {
            left_at_item(before)
        }
        Event::Field(_) => left_at_field(before),
        Event::ItemEnd => rest.len() + 1,
        Event::Wrong(_) => rest.len(),
    }
}

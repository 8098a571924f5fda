//! Which tokens of a name are von.
ghost use Rattle.std.specs.Prelude.{◌≡◌, find, take_while, length, IfSome};
ghost use Rattle.std.specs.Char.{is_ascii_alphabetic};
ghost use Rattle.btx_text.specs.language.Class.{is_alpha};
ghost use Rattle.btx_text.specs.refinement.Parts.{part_of};
ghost use Rattle.btx_names.specs.language.VonTokens as spec;
ghost use Rattle.btx_names.specs.laws.VonTokens as law;

use btx_strings::controls::letters;
use btx_text::classify::is_alpha;
use btx_text::{Element, Elements, Kind};

/// Whether a token is von: its first cased thing is lower case.
#[tactic(auto, using(crate::proofs::VonLemmas::von_steps), unfolding(crate::specs::language::VonTokens::is_von))]
pub fn is_von(token: &[u8]) -> bool
    ensures { result ≡ spec.is_von token.now }
{
    for element in Elements::of(token) {
        if let Some(is_lower) = casing(element) {
            return is_lower;
        }
    }
    false
}

// Whether an element is lower case, if it decides that: special characters and letters at depth 0 do.
fn casing(element: Element<'_>) -> Option<bool>
    ensures { result ≡ law.casing (part_of element.entry) }
{
    let first = element.text[0];
    match element.kind {
        Kind::Special => Some(is_lower_special(element.text)),
        Kind::Byte if element.depth == 0 && first.is_ascii_alphabetic() => {
            Some(first.is_ascii_lowercase())
        }
        _ => None,
    }
}

// Whether a special character is lower case.
#[tactic(auto, unfolding(crate::specs::language::VonTokens::is_lower_special))]
fn is_lower_special(text: &[u8]) -> bool
    ensures { result ≡ spec.is_lower_special text.now }
{
    let inside = text.get(2..).unwrap_or(&[]);
    let (name, after) = inside.split_at(letters_len(inside));
    if is_foreign(name) {
        return matches!(name, [b'a'..=b'z', ..]);
    }
    begins_lower(after)
}

// How many letters a text begins with.
fn letters_len(text: &[u8]) -> usize
    ensures { result ≡ length (take_while is_alpha text.now) }
{
    text.iter().take_while(|byte| is_alpha(**byte)).count()
}

// Whether a control sequence without its backslash is a foreign letter.
fn is_foreign(name: &[u8]) -> bool
    ensures { result ≡ law.is_foreign name.now }
{
    !letters(name).is_empty()
}

// Whether a text's first letter is there and in lower case.
fn begins_lower(text: &[u8]) -> bool
    ensures { result ≡ law.begins_lower text.now }
{
    match first_letter(text) {
        Some(letter) => letter.is_ascii_lowercase(),
        None => false,
    }
}

// The first letter `A-Z` or `a-z` of a text.
fn first_letter(text: &[u8]) -> Option<u8>
    ensures { result ≡ find is_ascii_alphabetic text.now }
{
    text.iter().copied().find(|byte| byte.is_ascii_alphabetic())
}

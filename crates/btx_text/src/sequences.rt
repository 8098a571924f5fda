//! The sequences of UTF-8 that are one character of more than one byte.
ghost use Rattle.std.specs.Prelude.{◌≡◌, slice_index};
ghost use Rattle.std.specs.List.{list_all};
ghost use Rattle.btx_text.specs.language.Sequences as spec;

// Whether a byte goes on with a sequence.
fn is_further(byte: u8) -> bool
    ensures { result ≡ spec.is_further byte }
{
    matches!(byte, 0x80..=0xBF)
}

// How many bytes a sequence has that begins with a byte, 0 where none does.
#[tactic(auto, unfolding(crate::specs::language::Sequences::sequence_size))]
pub(crate) fn sequence_size(first: u8) -> usize
    ensures { result ≡ spec.sequence_size first }
{
    match first {
        0xC2..=0xDF => 2,
        0xE0..=0xEF => 3,
        0xF0..=0xF4 => 4,
        _ => 0,
    }
}

// Whether the second byte fits the first.
#[tactic(auto, unfolding(crate::specs::language::Sequences::second_fits))]
fn second_fits(first: u8, second: u8) -> bool
    ensures { result ≡ spec.second_fits first second }
{
    match first {
        0xE0 => matches!(second, 0xA0..=0xBF),
        0xED => matches!(second, 0x80..=0x9F),
        0xF0 => matches!(second, 0x90..=0xBF),
        0xF4 => matches!(second, 0x80..=0x8F),
        _ => is_further(second),
    }
}

// Whether each byte goes on with a sequence.
fn all_further(bytes: &[u8]) -> bool
    ensures { result ≡ list_all spec.is_further bytes.now }
{
    bytes.iter().all(|byte| is_further(*byte))
}

// Whether a text is one well-formed sequence.
#[tactic(auto, unfolding(crate::specs::language::Sequences::is_sequence))]
fn is_sequence(text: &[u8]) -> bool
    ensures { result ≡ spec.is_sequence text.now }
{
    match text {
        [first, second, others @ ..] => {
            text.len() == sequence_size(*first)
                && second_fits(*first, *second)
                && all_further(others)
        }
        _ => false,
    }
}

// Whether a text, which begins with the byte `first`, begins with a well-formed sequence.
#[tactic(auto, unfolding(crate::specs::language::Sequences::begins_sequence), using(crate::proofs::SequenceLemmas::sequence_steps))]
pub(crate) fn begins_sequence(first: u8, rest: &[u8]) -> bool
    requires { slice_index rest.now 0 ≡ first }
    ensures { result ≡ spec.begins_sequence rest.now }
{
    let size = sequence_size(first).min(rest.len());
    is_sequence(&rest[..size])
}

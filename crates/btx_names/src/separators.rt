//! What stands between two names.
ghost use Rattle.std.specs.Prelude.{◌≡◌, ◌≤◌, ◌==◌, ◌&&◌, length, slice_index};
ghost use Rattle.btx_names.specs.language.NameLists as spec;
ghost use Rattle.btx_names.specs.refinement.NameLists as part;
ghost use Rattle.btx_names.specs.refinement.Steps as steps;
ghost use Rattle.std.specs.Int.{is_in_range};

use btx_text::classify::is_white;
use btx_text::depths::depth_after;

// Whether `and` in any case comes after the first byte of a text.
fn has_and(text: &[u8]) -> bool
    requires { 4 ≤ length text.now }
    ensures { result ≡ (part.is_letter 97 (slice_index text.now 1) && part.is_letter 110 (slice_index text.now 2)
        && part.is_letter 100 (slice_index text.now 3)) }
{
    matches!(text[1], b'a' | b'A')
        && matches!(text[2], b'n' | b'N')
        && matches!(text[3], b'd' | b'D')
}

// Whether a separator stands where the brace depth is given: a whitespace byte, `and` in any case, and a whitespace byte, at depth 0. The
// `and` is looked for first, since few whitespace bytes stand before one.
#[tactic(auto, unfolding(crate::specs::language::NameLists::is_separator))]
pub(crate) fn separates(depth: usize, text: &[u8]) -> bool
    ensures { result ≡ (depth == 0 && spec.is_separator text.now) }
{
    depth == 0 && text.len() >= 5 && has_and(text) && is_white(text[0]) && is_white(text[4])
}

// Whether a byte is from `!` to `z`. Such a byte is neither whitespace nor a brace: it begins no separator, and it leaves the depth as it is.
fn is_plain(byte: u8) -> bool
    ensures { result ≡ is_in_range 33 122 byte }
{
    matches!(byte, b'!'..=b'z')
}

/// How long the first piece of a text is: to the whitespace byte before the first `and` that separates, this byte included, or to the end.
#[tactic(auto, using(crate::proofs::NameLemmas::name_len_steps))]
pub(crate) fn name_len(text: &[u8]) -> usize
    ensures { result ≡ steps.first_name_len 0 text.now }
{
    let mut depth = 0;
    for (place, &byte) in text.iter().enumerate() {
        if is_plain(byte) {
            continue;
        }
        if separates(depth, &text[place..]) {
            return place + 1;
        }
        depth = depth_after(depth, byte);
    }
    text.len()
}

//! The fields of an entry, read.
ghost use Rattle.std.specs.Prelude.{◌≡◌};
ghost use Rattle.btx_bib.specs.refinement.Grammar.FieldViews.{field_view, more_view};
ghost use Rattle.btx_bib.specs.language.Grammar.Fields as spec;
ghost use Rattle.btx_bib.specs.laws.Grammar.Fields as part;
ghost use Rattle.btx_bib.specs.refinement.Grammar.Tokens.{seen};

use crate::grammar::byte_sets::{ByteSet, Delimiter};
use crate::grammar::fields::Field;
use crate::grammar::slip::SyntaxError;
use crate::grammar::tokens::{Read, closing, name, past, sign, slip_at};
use crate::grammar::values::read_value;

// A field: a name, `=` and a value.
#[tactic(auto, unfolding(crate::specs::language::Grammar::Fields::field_at))]
#[inline(never)]
fn read_field(text: &[u8]) -> Read<'_, Field<'_>>
    ensures { seen field_view result ≡ spec.field_at text.now }
{
    let (name, rest) = name(text)?;
    let (_, rest) = sign(b'=', SyntaxError::NoEquals, rest)?;
    let (value, rest) = read_value(rest)?;
    Ok((Field { name, value }, rest))
}

// What follows a comma.
#[tactic(auto, unfolding(crate::specs::language::Grammar::Fields::after_comma))]
fn after_comma(delimiter: Delimiter, rest: &[u8]) -> Read<'_, Option<Field<'_>>>
    ensures { seen more_view result ≡ spec.after_comma delimiter rest.now }
{
    match rest.split_first() {
        Some((&byte, after)) if byte == closing(delimiter) => Ok((None, after)),
        _ => {
            let (field, after) = read_field(rest)?;
            Ok((Some(field), after))
        }
    }
}

/// What follows the key or a field: one more field, or the end of the entry.
#[tactic(auto, unfolding(crate::specs::language::Grammar::Fields::more_in))]
pub fn read_more(delimiter: Delimiter, text: &[u8]) -> Read<'_, Option<Field<'_>>>
    ensures { seen more_view result ≡ part.more_at delimiter text.now }
{
    let rest = past(ByteSet::Gap, text);
    match rest.split_first() {
        Some((&byte, after)) if byte == closing(delimiter) => Ok((None, after)),
        Some((&b',', after)) => after_comma(delimiter, past(ByteSet::Gap, after)),
        _ => Err((slip_at(SyntaxError::NoComma(delimiter), rest), rest)),
    }
}

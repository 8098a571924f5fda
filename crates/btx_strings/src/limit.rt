//! The limit of a string.
ghost use Rattle.btx_strings.specs.refinement.Limit.{KeepsLimit};

use btx_text::{Fault, GREATEST_STRING};

// Nothing where a string may have this number of bytes, else [`Fault::StringLimit`].
pub(crate) fn within_limit(length: usize) -> Result<(), Fault>
    ensures { KeepsLimit result length }
{
    if length > GREATEST_STRING {
        return Err(Fault::StringLimit);
    }
    Ok(())
}

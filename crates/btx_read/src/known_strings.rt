//! The texts of names that a database doesn't define itself.
ghost use Rattle.std.specs.Prelude.{◌≡◌, OnOk};
ghost use Rattle.btx_bib.specs.language.Grammar.ValueTexts.{squeezed};
ghost use Rattle.btx_read.specs.Records.{with_string};

use btx_bib::grammar::value_texts::squeezed_text;
use btx_bib::strings::StringTable;
use btx_text::Fault;
use std::alloc::{AllocError, Global};

/// Gives a name a text that a database doesn't have, such as that of a style's macro. One that is too long once it is squeezed gives it nothing.
pub fn add_string<'a>(
    alloc: Global,
    strings: &mut StringTable<'a>,
    name: &[u8],
    text: &'a [u8],
) -> Result<(), AllocError>
    ensures { OnOk result (strings.new ≡ with_string strings.old name.now (squeezed text.entry.now)) }
{
    match squeezed_text(alloc, text) {
        Ok(value) => strings.define(alloc, name, value),
        Err(Fault::StringLimit) => Ok(()),
        Err(Fault::Memory) => Err(AllocError),
        Err(Fault::Device | Fault::FileLimit) => unreachable!(),
    }
}

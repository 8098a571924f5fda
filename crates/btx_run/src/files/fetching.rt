//! Fetching one file.
ghost use Rattle.std.specs.Prelude.{◌≡◌, ◌∷◌, [], IfOk, IfSome, OnErr};
ghost use Rattle.btx_aux.specs.refinement.Answers.{ByAnswers};
ghost use Rattle.btx_aux.specs.refinement.Faults.{CountsOfOne};
ghost use Rattle.btx_core.specs.language.Files.Found.{file_at};

use btx_aux::Finder;
use btx_core::FoundFile;
use btx_text::Fault;
use std::alloc::Global;

/// Fetches the file `name`, if it is there, into memory of its size.
pub fn fetch_file<'a, F: Finder>(
    alloc: Global,
    finder: &mut F,
    name: &'a [u8],
) -> Result<Option<FoundFile<'a>>, Fault>
    ensures file { IfSome (F.content finder.old) (λ files. IfOk result (λ found. found ≡ file_at files name.entry.now)) }
    ensures answered { IfOk result (λ found. ByAnswers (F.content finder.old) (F.answers finder.old) (F.answers finder.new)
        (λ names. names ≡ name.entry.now ∷ []) (λ files. found ≡ file_at files name.entry.now)) }
    ensures refused { OnErr result (F.answers finder.new ≡ F.answers finder.old) }
    ensures stays { F.content finder.new ≡ F.content finder.old }
    ensures counts { CountsOfOne result (F.failures finder.old, F.failures finder.new) }
{
    let mut bytes = Vec::new(alloc);
    if finder.fetch(alloc, name, &mut bytes)? {
        bytes.shrink_to_fit();
        Ok(Some(FoundFile::new(name, bytes)))
    } else {
        Ok(None)
    }
}

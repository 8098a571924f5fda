//! The names of a job's files.
ghost use Rattle.std.specs.Prelude.{◌≡◌, IfOk};
ghost use Rattle.btx_text.specs.language.Limits.{is_too_long};
ghost use Rattle.btx_run.specs.refinement.Files.Names.{top_name};

use btx_text::GREATEST_FILE;
use std::alloc::{AllocError, Global};

/// Makes the name of the top-level file: the job's name with `.aux`, unless it ends so.
pub fn top_name(alloc: Global, job: &[u8]) -> Result<Vec<u8>, AllocError>
    ensures { IfOk result (λ name. name.items ≡ top_name job.now) }
{
    let mut name = Vec::from_slice(alloc, job)?;
    if !job.ends_with(b".aux") {
        name.extend_from_slice(b".aux")?;
    }
    Ok(name)
}

/// Answers whether a file is too long to be read: above 2,147,483,647 bytes.
pub fn is_too_long(text: &[u8]) -> bool
    ensures { result ≡ is_too_long text.now }
{
    text.len() > GREATEST_FILE
}

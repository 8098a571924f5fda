//! The list of entries, as READ makes it and REVERSE turns it, and the limit at which READ ends.
ghost use Rattle.std.specs.Prelude.{◌≡◌, length, reverse, IfOk};
ghost use Rattle.btx_machine.specs.language.Items.{read_limit};
ghost use Rattle.btx_machine.specs.refinement.Items.{all_entries};

use btx_bib::End as LibraryEnd;
use btx_step::Job;
use btx_text::Limit;
use std::alloc::{AllocError, Global};

/// The limit that the reading of the databases met, if it met one.
pub fn read_limit(job: &Job<'_>) -> Option<Limit>
    ensures { result ≡ read_limit job.now.library.ending }
{
    match job.library().end() {
        LibraryEnd::Whole => None,
        LibraryEnd::FileLimit => Some(Limit::File),
        LibraryEnd::StringLimit => Some(Limit::String),
    }
}

/// All entries, in the order of the list that the databases gave.
pub fn all_entries(alloc: Global, job: &Job<'_>) -> Result<Vec<usize>, AllocError>
    ensures { IfOk result (λ list. list.items ≡ all_entries job.now) }
{
    let mut list = Vec::new(alloc);
    for entry in 0..entry_count(job) {
        list.push(entry)?;
    }
    Ok(list)
}

// How many entries the databases gave.
fn entry_count(job: &Job<'_>) -> usize
    ensures { result ≡ length job.now.library.entries }
{
    job.library().len()
}

/// The list from its end.
pub fn reversed(list: &Vec<usize>) -> Result<Vec<usize>, AllocError>
    ensures { IfOk result (λ back. back.items ≡ reverse list.now.items) }
{
    let mut back = list.clone()?;
    back.reverse();
    Ok(back)
}

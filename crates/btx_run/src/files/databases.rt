//! The databases of a job are looked for.
ghost use Rattle.std.specs.Prelude.{◌≡◌, ◌+◌, ◌∷◌, [], length, IfOk};
ghost use Rattle.btx_aux.specs.refinement.Answers.{ByAnswers};
ghost use Rattle.btx_aux.specs.refinement.Entries.{texts_of};
ghost use Rattle.btx_run.specs.refinement.Files.Asked.{AreAmong};
ghost use Rattle.btx_run.specs.refinement.Files.Counts.{counts_at};
ghost use Rattle.btx_run.specs.refinement.Files.Faults.{CountsOfReading};
ghost use Rattle.btx_run.specs.refinement.Files.Places.{HandsOf};
ghost use Rattle.btx_run.specs.refinement.Files.Readings.{AddsAs, ReadsAs, database_read, database_logged, databases_read};

use crate::files::fetching::fetch_file;
use crate::files::lines::{database_line, no_database_line};
use btx_aux::Finder;
use btx_core::{FoundFile, FoundFiles, next_number};
use btx_machine::{About, Journal, LogSink};
use btx_text::{Fault, LogLine};
use std::alloc::{AllocError, Global};

// The line of the log that says whether a database was found, as the one of this number.
fn line_of(
    alloc: Global,
    number: u64,
    name: &[u8],
    found: &Option<FoundFile<'_>>,
) -> Result<LogLine, AllocError>
    ensures { IfOk result (λ line. line ≡ database_logged number name.now found.now) }
{
    match found {
        Some(_) => database_line(alloc, number, name),
        None => no_database_line(alloc, name),
    }
}

// Looks for a database, which is logged as the one of this number.
fn find_database<'a, F: Finder, L: LogSink>(
    alloc: Global,
    finder: &mut F,
    number: u64,
    name: &'a [u8],
    journal: &mut Journal<'_, L>,
) -> Result<Option<FoundFile<'a>>, Fault>
    ensures reads { ByAnswers (F.content finder.old) (F.answers finder.old) (F.answers finder.new) (λ names. AreAmong names (name.entry.now ∷ [])) (λ files.
        ReadsAs result (counts_at journal.old, counts_at journal.new) (journal.old.sink.received, journal.new.sink.received)
        (database_read files number name.entry.now)) }
    ensures met { ByAnswers (F.content finder.old) (F.answers finder.old) (F.answers finder.new) (λ names. AreAmong names (name.entry.now ∷ [])) (λ files.
        HandsOf journal.old journal.new (database_read files number name.entry.now).lines) }
    ensures stays { F.content finder.new ≡ F.content finder.old }
    ensures counts { CountsOfReading result (F.failures finder.old, F.failures finder.new) journal.old journal.new }
{
    let found = fetch_file(alloc, finder, name)?;
    let line = line_of(alloc, number, name, &found)?;
    journal.log_one(&line, About::Files)?;
    Ok(found)
}

// Looks for a database, and keeps it with those that were found before it.
fn add_database<'a, F: Finder, L: LogSink>(
    alloc: Global,
    finder: &mut F,
    name: &'a [u8],
    found: &mut FoundFiles<'a>,
    journal: &mut Journal<'_, L>,
) -> Result<(), Fault>
    ensures adds { ByAnswers (F.content finder.old) (F.answers finder.old) (F.answers finder.new) (λ names. AreAmong names (name.entry.now ∷ [])) (λ files.
        AddsAs result found.old found.new (counts_at journal.old, counts_at journal.new) (journal.old.sink.received, journal.new.sink.received)
        (database_read files (length found.old + 1) name.entry.now)) }
    ensures met { ByAnswers (F.content finder.old) (F.answers finder.old) (F.answers finder.new) (λ names. AreAmong names (name.entry.now ∷ [])) (λ files.
        HandsOf journal.old journal.new (database_read files (length found.old + 1) name.entry.now).lines) }
    ensures stays { F.content finder.new ≡ F.content finder.old }
    ensures counts { CountsOfReading result (F.failures finder.old, F.failures finder.new) journal.old journal.new }
{
    let number = next_number(found);
    match find_database(alloc, finder, number, name, journal)? {
        Some(database) => Ok(found.push(database)?),
        None => Ok(()),
    }
}

/// Fetches the databases of `names`, each in turn, and logs for each whether it was found. Answers those that were found.
pub fn find_databases<'a, F: Finder, L: LogSink>(
    alloc: Global,
    finder: &mut F,
    names: &'a [Vec<u8>],
    journal: &mut Journal<'_, L>,
) -> Result<FoundFiles<'a>, Fault>
    ensures reads { ByAnswers (F.content finder.old) (F.answers finder.old) (F.answers finder.new) (λ asked. AreAmong asked (texts_of names.entry.now))
        (λ files.
        ReadsAs result (counts_at journal.old, counts_at journal.new) (journal.old.sink.received, journal.new.sink.received)
        (databases_read files (texts_of names.entry.now))) }
    ensures met { ByAnswers (F.content finder.old) (F.answers finder.old) (F.answers finder.new) (λ asked. AreAmong asked (texts_of names.entry.now)) (λ files.
        HandsOf journal.old journal.new (databases_read files (texts_of names.entry.now)).lines) }
    ensures stays { F.content finder.new ≡ F.content finder.old }
    ensures counts { CountsOfReading result (F.failures finder.old, F.failures finder.new) journal.old journal.new }
{
    let mut found = FoundFiles::new(alloc);
    for name in names {
        add_database(alloc, finder, name.as_slice(), &mut found, journal)?;
    }
    Ok(found)
}

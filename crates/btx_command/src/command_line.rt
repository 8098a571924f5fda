//! The command line.
ghost use Rattle.std.specs.Prelude.{◌≡◌, ◌⊎◌, if◌then◌else◌, is_ok, IfOk, codes, map, string_bytes, unwrap_or};
ghost use Rattle.clap.specs.Words.{FailsBy, fault_of, first_of, found_of, kind_of, matches_of, one_of, rows_of};
ghost use Rattle.clap.specs.Simple.{App};
ghost use Rattle.btx_command.specs.CommandLine.{AreOptionsOf, HasNumbers, IsBibtex, IsFlag, IsGivenFrom, IsNameOf, IsSettingsOf, Refuses, mode_of, most_steps};
ghost use Rattle.btx_command.specs.CommandLine.{number_or};
ghost use Rattle.btx_command.specs.Status.{fault_exit, refusal_exit, refused_memory};

use crate::given::{Refusal, Settings};
use crate::options::bibtex_command;
use btx_run::{KeptBytes, LineLength, Options, TextMode};
use clap::error::ErrorKind;
use clap::{ArgMatches, Error};
use std::alloc::{AllocError, Global};

// How many references keep an entry in the list that isn't cited, where nothing is said.
const USUAL_CROSSREFS: u32 = 2;

// The budget where none is given.
const USUAL_STEPS: u64 = 1_000_000_000;

// What a list of words gives for the command.
fn matches<'a>(alloc: Global, words: &'a [String]) -> Result<ArgMatches<'a>, Error>
    ensures rows { IfOk result (λ found. (app : App) × IsBibtex app × (rows_of (found_of found) ≡ matches_of app (map (λ word. string_bytes word) words.now))) }
    ensures numbers { IfOk result (λ found. HasNumbers (rows_of (found_of found))) }
    ensures faults { (app : App) × IsBibtex app × FailsBy (fault_of app (map (λ word. string_bytes word) words.now)) result }
{
    bibtex_command(alloc)?.try_get_matches_from(words)
}

// The value of an argument, or what stands in its place.
fn value_or<'a>(matches: &ArgMatches<'a>, id: &str, other: &'a str) -> &'a str
    ensures { result.now ≡ unwrap_or (first_of id.now (rows_of (found_of matches.now))) other.entry.now }
{
    matches.get_str(id).unwrap_or(other)
}

// The number of an option, or what stands in its place.
fn number_or(matches: &ArgMatches<'_>, id: &str, usual: u32) -> u32
    requires { IsGivenFrom 0 4294967295 id.now (rows_of (found_of matches.now)) }
    ensures { result ≡ number_or usual (one_of id.now (rows_of (found_of matches.now))) }
{
    matches.get_one::<u32>(id).unwrap_or(usual)
}

// The budget.
fn budget_of(matches: &ArgMatches<'_>) -> u64
    requires { IsGivenFrom 0 most_steps (codes "budget") (rows_of (found_of matches.now)) }
    ensures { result ≡ number_or 1000000000 (one_of (codes "budget") (rows_of (found_of matches.now))) }
{
    matches.get_one::<u64>("budget").unwrap_or(USUAL_STEPS)
}

// How the text of strings is read.
fn text_mode_of(matches: &ArgMatches<'_>) -> TextMode
    ensures { result ≡ mode_of (unwrap_or (first_of (codes "text") (rows_of (found_of matches.now))) (codes "bytes")) }
{
    match value_or(matches, "text", "bytes") {
        "utf8" => TextMode::Utf8,
        _ => TextMode::Bytes,
    }
}

// The greatest length of a line.
fn line_length_of(matches: &ArgMatches<'_>) -> LineLength
    requires { IsGivenFrom 20 1000 (codes "line") (rows_of (found_of matches.now)) }
    ensures { result ≡ number_or 79 (one_of (codes "line") (rows_of (found_of matches.now))) }
{
    let usual = LineLength::default();
    LineLength::new(number_or(matches, "line", usual.get())).unwrap_or(usual)
}

// How many bytes of a string a variable keeps.
fn kept_bytes_of(matches: &ArgMatches<'_>, id: &str, usual: KeptBytes) -> KeptBytes
    requires { IsGivenFrom 1 1000000 id.now (rows_of (found_of matches.now)) }
    ensures { result ≡ number_or usual (one_of id.now (rows_of (found_of matches.now))) }
{
    KeptBytes::new(number_or(matches, id, usual.get())).unwrap_or(usual)
}

// What is asked of the run.
fn options_of(matches: &ArgMatches<'_>) -> Options
    requires { HasNumbers (rows_of (found_of matches.now)) }
    ensures { AreOptionsOf (rows_of (found_of matches.now)) result }
{
    Options {
        min_crossrefs: number_or(matches, "min-crossrefs", USUAL_CROSSREFS),
        budget: budget_of(matches),
        text: text_mode_of(matches),
        line: line_length_of(matches),
        entry_max: kept_bytes_of(matches, "entry-max", KeptBytes::of_entries()),
        global_max: kept_bytes_of(matches, "global-max", KeptBytes::of_globals()),
    }
}

// Whether a flag is given.
fn has_flag(matches: &ArgMatches<'_>, id: &str) -> bool
    ensures { IsFlag (one_of id.now (rows_of (found_of matches.now))) result }
{
    matches.get_one::<bool>(id).unwrap_or(false)
}

// The name of a job, which may be given with a last `.aux`.
fn name_of(job: &str) -> &str
    ensures { IsNameOf job.now result.now }
{
    job.strip_suffix(".aux").unwrap_or(job)
}

// What is answered for words that are not run.
fn refusal_of(alloc: Global, error: &Error) -> Refusal
    ensures { (refusal_exit result ≡ refused_memory) ⊎ (refusal_exit result ≡ fault_exit (kind_of error.now)) }
{
    refusal_with(error.kind(), error.to_string(alloc))
}

// What is answered for words with a fault of this kind, whose text was made, or couldn't be for want of memory. No other text has want of memory for an
// answer.
fn refusal_with(kind: ErrorKind, text: Result<String, AllocError>) -> Refusal
    ensures { refusal_exit result ≡ (if is_ok text then fault_exit kind else refused_memory) }
{
    match (kind, text) {
        (_, Err(_)) | (ErrorKind::OutOfMemory, _) => Refusal::Memory,
        (ErrorKind::DisplayHelp | ErrorKind::DisplayVersion, Ok(text)) => Refusal::Shown(text),
        (_, Ok(text)) => Refusal::Mistake(text),
    }
}

/// Reads a command line, whose first word is the program's name. The words are refused exactly where the command's rules find a fault
/// with them, or where memory is refused.
pub fn settings<'a>(alloc: Global, words: &'a [String]) -> Result<Settings<'a>, Refusal>
    ensures read { IfOk result (IsSettingsOf (map (λ word. string_bytes word) words.now)) }
    ensures refused { Refuses (map (λ word. string_bytes word) words.now) result }
{
    let matches = match matches(alloc, words) {
        Ok(matches) => matches,
        Err(error) => return Err(refusal_of(alloc, &error)),
    };
    let job = value_or(&matches, "JOB", "");
    Ok(Settings {
        directory: value_or(&matches, "dir", "."),
        job,
        name: name_of(job),
        terse: has_flag(&matches, "terse"),
        options: options_of(&matches),
    })
}

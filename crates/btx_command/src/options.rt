//! The words that the command takes: what each is called, its range, and what stands where it is left out.
ghost use Rattle.std.specs.Prelude.{◌≡◌, IfOk, false};
ghost use Rattle.clap.specs.Words.{app_of, rule_of};
ghost use Rattle.btx_command.specs.CommandLine.{HasModes, IsBibtex, Modes, directory_rule, job_rule, number_rule, terse_rule, text_rule};

use clap::builder::ValueParser;
use clap::{Arg, ArgAction, Command};
use std::alloc::{AllocError, Global};

// An option `--name N`, whose value is a number of this range; `usual` stands where it is left out.
fn number_option<'a>(alloc: Global, name: &'a str, least: u64, most: u64, usual: &'a str) -> Arg<'a>
    ensures rule { rule_of result ≡ number_rule name.entry.now least most usual.entry.now }
    ensures local { result.global ≡ false }
{
    Arg::new(alloc, name)
        .long(name)
        .value_name("N")
        .value_parser(ValueParser::unsigned(least, most))
        .default_value(usual)
}

// The option `--dir D`.
fn directory_option<'a>(alloc: Global) -> Arg<'a>
    ensures rule { rule_of result ≡ directory_rule }
    ensures local { result.global ≡ false }
{
    Arg::new(alloc, "dir")
        .long("dir")
        .value_name("D")
        .default_value(".")
        .help("The folder of the job's files")
}

// The flag `--terse`.
fn terse_flag<'a>(alloc: Global) -> Arg<'a>
    ensures rule { rule_of result ≡ terse_rule }
    ensures local { result.global ≡ false }
{
    Arg::new(alloc, "terse")
        .long("terse")
        .action(ArgAction::SetTrue)
        .help("Does not print the log")
}

// The option `--text MODE`.
fn text_option<'a>(alloc: Global) -> Arg<'a>
    ensures rule { (modes : Modes) × HasModes modes × (rule_of result ≡ text_rule modes) }
    ensures local { result.global ≡ false }
{
    let modes: &'a [&'a str] = &["bytes", "utf8"];
    Arg::new(alloc, "text")
        .long("text")
        .value_name("MODE")
        .value_parser(modes)
        .default_value("bytes")
        .help(
            "How the text of strings is read: byte by byte, or as UTF-8 (no letter outside ASCII has a case)",
        )
}

// The word JOB.
fn job_word<'a>(alloc: Global) -> Arg<'a>
    ensures rule { rule_of result ≡ job_rule }
    ensures local { result.global ≡ false }
{
    Arg::new(alloc, "JOB").required(true).help(
        "The name of the job's .aux file, with or without its ending",
    )
}

/// The program's version.
const VERSION: &str = "1.0.0";

/// What the program does.
pub const ABOUT: &str =
    "Writes the list of references of a LaTeX document: reads its .aux files, its databases and a style, and writes JOB.bbl and the log JOB.blg";

/// The exit statuses.
pub const STATUSES: &str = "Exit status:
  0  the job ran to its end, without error messages
  1  the command line is refused
  2  the job ran to its end, with error messages in the log
  3  a limit was met, or there is no JOB.aux
  4  the budget was spent
  5  memory was refused
  6  a file couldn't be read, or an output not be written";

/// Makes the command `bibtex`: its options and argument. The texts of its help change nothing in how words are read.
pub(crate) fn bibtex_command<'a>(alloc: Global) -> Result<Command<'a>, AllocError>
    ensures { IfOk result (λ command. IsBibtex (app_of command)) }
{
    Command::new(alloc, "bibtex")
        .version(VERSION)
        .about(ABOUT)
        .after_help(STATUSES)
        .arg(number_option(alloc, "min-crossrefs", 0, 2_147_483_647, "2").help(
            "How many references list an entry that isn't cited",
        ))?
        .arg(number_option(alloc, "budget", 0, 1_000_000_000_000_000, "1000000000").help(
            "How many steps the style may take at most",
        ))?
        .arg(directory_option(alloc))?
        .arg(terse_flag(alloc))?
        .arg(text_option(alloc))?
        .arg(number_option(alloc, "line", 20, 1_000, "79").help(
            "How long a line of the list may be where it can be broken",
        ))?
        .arg(number_option(alloc, "entry-max", 1, 1_000_000, "250").help(
            "How many bytes of a string a variable of an entry keeps",
        ))?
        .arg(number_option(alloc, "global-max", 1, 1_000_000, "20000").help(
            "How many bytes of a string a global variable keeps",
        ))?
        .arg(job_word(alloc))
}

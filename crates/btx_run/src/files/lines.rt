//! The lines of a log on files, without byte 10.
ghost use Rattle.std.specs.Prelude.{◌≡◌, ◌++◌, IfOk, OnOk, codes, decimal};
ghost use Rattle.btx_text.specs.language.LogLines.{message};
ghost use Rattle.btx_core.specs.language.Files.Lines.{database_line, no_database_line, no_style_line, style_line};

use btx_text::log_texts::{push_mark, push_number, push_two};
use btx_text::{LineKind, LogLine};
use std::alloc::{AllocError, Global};

/// Makes the log line for a style that was found.
#[tactic(auto, unfolding(btx_core::specs::language::Files::Lines::style_line))]
pub fn style_line(alloc: Global, name: &[u8]) -> Result<LogLine, AllocError>
    ensures { IfOk result (λ line. line ≡ style_line name.now) }
{
    line_of_two(alloc, LineKind::Plain, b"The style file: ", name)
}

/// Makes the log line for a style that wasn't found.
#[tactic(auto, unfolding(btx_core::specs::language::Files::Lines::no_style_line))]
pub fn no_style_line(alloc: Global, name: &[u8]) -> Result<LogLine, AllocError>
    ensures { IfOk result (λ line. line ≡ no_style_line name.now) }
{
    line_of_two(alloc, LineKind::Error, b"I couldn't open style file ", name)
}

// A line of this kind with two pieces of text.
fn line_of_two(
    alloc: Global,
    kind: LineKind,
    first: &[u8],
    second: &[u8],
) -> Result<LogLine, AllocError>
    ensures { IfOk result (λ line. line ≡ message kind (first.now ++ second.now)) }
{
    let mut text = Vec::new(alloc);
    push_mark(&mut text, kind)?;
    push_two(&mut text, first, second)?;
    Ok(LogLine::new(text, kind))
}

/// Makes the log line for a database that was found; `number` counts those that were found, from 1 up.
#[tactic(auto, unfolding(btx_core::specs::language::Files::Lines::database_line))]
pub fn database_line(alloc: Global, number: u64, name: &[u8]) -> Result<LogLine, AllocError>
    ensures { IfOk result (λ line. line ≡ database_line number name.now) }
{
    let mut text = Vec::new(alloc);
    push_mark(&mut text, LineKind::Plain)?;
    push_database(&mut text, number, name)?;
    Ok(LogLine::new(text, LineKind::Plain))
}

/// Makes the log line for a database that wasn't found.
#[tactic(auto, unfolding(btx_core::specs::language::Files::Lines::no_database_line))]
pub fn no_database_line(alloc: Global, name: &[u8]) -> Result<LogLine, AllocError>
    ensures { IfOk result (λ line. line ≡ no_database_line name.now) }
{
    line_of_two(
        alloc,
        LineKind::Error,
        b"I couldn't open database file ",
        name,
    )
}

// Appends that a database was found.
#[tactic(auto, using(btx_text::proofs::JoinLemmas::joins))]
fn push_database(text: &mut Vec<u8>, number: u64, name: &[u8]) -> Result<(), AllocError>
    ensures { OnOk result (text.new.items ≡ text.old.items ++ (codes "Database file #" ++ decimal number ++ codes ": " ++ name.now)) }
{
    push_number(text, b"Database file #", number)?;
    push_two(text, b": ", name)
}

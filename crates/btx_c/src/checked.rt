//! What the checker of styles says of a style's text.
ghost use Rattle.std.specs.Prelude.{◌≡◌, ◌++◌, IfOk, OnOk, IsTrue, false};
ghost use Rattle.btx_bst.specs.language.StyleText.{style_of};
ghost use Rattle.btx_check.specs.Verdicts.{IsRight};
ghost use Rattle.btx_c.specs.Checks.{TextIsClean, type_name, type_names};

use crate::warned::note_findings;
use btx_bst::{Callee, PlacedStyle, Style, read_placed_style};
use btx_check::Verdict;
use btx_lint::{Findings, examine};
use btx_text::Fault;
use std::alloc::{AllocError, Global};

/// What the checker says of a style.
#[derive(Drop)]
pub struct Checked {
    /// Whether it is clean.
    pub is_clean: bool,
    /// Whether the checker came to an end.
    pub is_whole: bool,
    /// Of a clean style the greatest number of bodies that are open at once, and of literals on the stack.
    pub bodies: usize,
    pub literals: usize,
    /// Of a clean style the names of the functions that an entry's type may be, each with byte 10.
    pub types: Vec<u8>,
    /// Where a style may go wrong that isn't clean.
    pub notes: Vec<u8>,
}

// Adds the name of the function `number` to `types`.
fn push_type(style: &Style<'_>, number: u32, types: &mut Vec<u8>) -> Result<(), AllocError>
    ensures { OnOk result (types.new.items ≡ types.old.items ++ type_name style.now.names number) }
{
    types.extend_from_slice(style.name(Callee::User(number)))?;
    types.extend_from_slice(b"\n")
}

// Adds the names of these functions to `types`.
fn push_types(style: &Style<'_>, numbers: &[u32], types: &mut Vec<u8>) -> Result<(), AllocError>
    ensures { OnOk result (types.new.items ≡ types.old.items ++ type_names style.now.names numbers.now) }
{
    for number in numbers {
        push_type(style, *number, types)?;
    }
    Ok(())
}

/// Answers the names of these functions, each with byte 10.
pub(crate) fn names_of(
    alloc: Global,
    style: &Style<'_>,
    numbers: &[u32],
) -> Result<Vec<u8>, AllocError>
    ensures { IfOk result (λ types. types.items ≡ type_names style.now.names numbers.now) }
{
    let mut types = Vec::new(alloc);
    push_types(style, numbers, &mut types)?;
    Ok(types)
}

// Answers what is said of a style that isn't known to be clean.
fn said_unclean(is_whole: bool, notes: Vec<u8>, types: Vec<u8>) -> Checked
    ensures { result.is_clean ≡ false }
{
    Checked {
        is_clean: false,
        is_whole,
        bodies: 0,
        literals: 0,
        types,
        notes,
    }
}

// Answers what is said of a style of which this was found.
#[tactic(auto, using(crate::proofs::CheckLemmas::text_is_clean))]
fn said(
    alloc: Global,
    name: &[u8],
    text: &[u8],
    placed: &PlacedStyle<'_>,
    findings: &Findings,
) -> Result<Checked, AllocError>
    requires style { placed.now.style ≡ style_of name.now text.now }
    requires right { IsRight placed.now.style findings.now.verdict }
    ensures { IfOk result (λ said. IsTrue said.is_clean → TextIsClean name.now text.now said.bodies said.types.items) }
{
    match &findings.verdict {
        Verdict::Clean(clean) => Ok(Checked {
            is_clean: true,
            is_whole: true,
            bodies: clean.deepest,
            literals: clean.literals,
            types: names_of(alloc, &placed.style, clean.allowed.as_slice())?,
            notes: Vec::new(alloc),
        }),
        Verdict::NotKnownClean(_) => {
            let notes = note_findings(alloc, placed, findings)?;
            Ok(said_unclean(true, notes, Vec::new(alloc)))
        }
        Verdict::Incomplete => {
            let notes = note_findings(alloc, placed, findings)?;
            Ok(said_unclean(false, notes, Vec::new(alloc)))
        }
    }
}

/// Checks the style whose file has the name `name` and the bytes `text`, in at most `steps` steps; where it isn't clean, another search takes at most as many.
pub fn check_style(alloc: Global, name: &[u8], text: &[u8], steps: u64) -> Result<Checked, Fault>
    ensures { IfOk result (λ said. IsTrue said.is_clean → TextIsClean name.now text.now said.bodies said.types.items) }
{
    let placed = read_placed_style(alloc, name, text)?;
    let findings = examine(alloc, &placed.style, steps)?;
    Ok(said(alloc, name, text, &placed, &findings)?)
}

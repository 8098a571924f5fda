//! The checker's part on loops that put a shorter text in the place of one on top of the stack.
ghost use Rattle.std.specs.Prelude.{◌<◌, ◌≡◌, IsTrue, true, length};
ghost use Rattle.btx_ends.specs.Certificates as within;
ghost use Rattle.btx_ends.specs.Shortening.{effects_by, kinds_by};
ghost use Rattle.btx_ends.specs.Views.{claims_of};

use crate::checker::Certificate;
use crate::claims::Claims;
use crate::kinds::kinds_hold;
use crate::measures::Replacement;
use crate::replacing::{Spoken, replaces, tells_top, text_measure};
use crate::shortening::effects_hold;
use btx_bst::Style;

// The replacement of a number; past the last one that of the first variables.
fn replacement_of(replacements: &[Replacement], k: usize) -> Replacement
    ensures { result ≡ within.replacements_by replacements.now k }
{
    if k < replacements.len() {
        replacements[k]
    } else {
        Replacement { text: 0, given: 0 }
    }
}

// Answers whether a function is the test that it is claimed to be.
fn filled_holds(style: &Style, claim: u32, number: usize) -> bool
    requires { number < length style.now.bodies }
    ensures { IsTrue result → within.FilledHolds style.now claim number }
{
    if claim == 0 {
        return true;
    }
    tells_top(style, style.body(number))
}

// Answers whether that is so of all functions.
fn all_filled(style: &Style, filled: &[u32]) -> bool
    ensures { IsTrue result → within.AllFilled style.now filled.now }
{
    if filled.len() > style.functions() {
        return false;
    }
    for number in 0..filled.len() {
        if !filled_holds(style, filled[number], number) {
            return false;
        }
    }
    true
}

// Answers whether a function makes a replacement, by what is said of all functions.
fn replaces_by(style: &Style, r: Replacement, said: Spoken<'_>, number: usize) -> bool
    requires { number < length style.now.bodies }
    ensures { IsTrue result → within.ReplacesBy style.now r (kinds_by said.entry.kinds.now) (effects_by said.entry.texts.now) (effects_by said.entry.givens.now) number }
{
    replaces(style, r, said, style.body(number))
        && kinds_hold(style, said.kinds)
        && effects_hold(style, text_measure(r.text), said.kinds, said.texts)
        && effects_hold(style, text_measure(r.given), said.kinds, said.givens)
}

// Answers whether a function makes the replacement that is claimed.
fn replace_holds(
    style: &Style,
    replacements: &[Replacement],
    certificate: &Certificate,
    claim: u32,
    number: usize,
) -> bool
    requires { number < length style.now.bodies }
    ensures { IsTrue result → within.ReplaceHolds style.now (within.replacements_by replacements.now) claim number }
{
    if claim == 0 {
        return true;
    }
    let k = (claim - 1) as usize;
    if k >= certificate.texts.len() || k >= certificate.givens.len() {
        return false;
    }
    let said = Spoken {
        kinds: certificate.kinds.as_slice(),
        texts: certificate.texts[k].as_slice(),
        givens: certificate.givens[k].as_slice(),
    };
    replaces_by(style, replacement_of(replacements, k), said, number)
}

// Answers whether that is so of all functions.
fn all_replace(
    style: &Style,
    replacements: &[Replacement],
    certificate: &Certificate,
    claims: &[u32],
) -> bool
    ensures { IsTrue result → within.AllReplace style.now (within.replacements_by replacements.now) claims.now }
{
    if claims.len() > style.functions() {
        return false;
    }
    for number in 0..claims.len() {
        if !replace_holds(style, replacements, certificate, claims[number], number) {
            return false;
        }
    }
    true
}

/// Answers whether all claims on loops over a text on top of the stack hold.
pub(crate) fn replacing_holds(style: &Style, claims: Claims<'_>, certificate: &Certificate) -> bool
    ensures { IsTrue result → within.ReplacingHolds (claims_of claims.entry) style.now }
{
    let replacements = certificate.replacements.as_slice();
    all_filled(style, claims.filled)
        && all_replace(style, replacements, certificate, claims.replaces)
}

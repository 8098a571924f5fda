//! The checker of certificates.
ghost use Rattle.std.specs.Prelude.{◌≡◌, ◌≤◌, ◌<◌, IsTrue, true, IfSome, IfOk, length};
ghost use Rattle.btx_bst.specs.declared.callee.Callee.TheVariants as callee;
ghost use Rattle.btx_ends.specs.declared.measures.Effect.TheVariants as effect;
ghost use Rattle.btx_ends.specs.Certificates as within;
ghost use Rattle.btx_ends.specs.Ends.{StyleEnds};
ghost use Rattle.btx_ends.specs.Shortening.{effects_by, kinds_by};
ghost use Rattle.btx_ends.specs.Views.{claims_of};

use crate::claims::{Claims, claim_of};
use crate::climbs::climbs_hold;
use crate::costs::{Bound, body_cost, items_cost};
use crate::descending::descending_holds;
use crate::keeping::{functions_keep, is_counting, is_test};
use crate::kinds::kinds_hold;
use crate::measures::{Climb, Effect, Kind, Measure, Replacement, Walk};
use crate::replacements::replacing_holds;
use crate::search::proposed;
use crate::shortening::{effects_hold, said_of};
use crate::telling::tells;
use crate::walks::walks_hold;
use btx_bst::{Style, Token};
use std::alloc::{AllocError, Global};

/// What is claimed of a style, and what bears the claims on loops out.
#[derive(Drop)]
pub struct Certificate {
    /// Of each function, by its number, the most steps that a call of it takes; 0 claims nothing.
    pub costs: Vec<u64>,
    /// The most steps that the function takes which `call.type$` calls.
    pub types: u64,
    /// Of each global integer variable, by its number, one more than its greatest value; 0 claims nothing.
    pub bounds: Vec<u64>,
    /// Of each function, by its number, one more than the number of the variable v of which it is the test `{v #0 >}`; 0 claims nothing.
    pub tests: Vec<u32>,
    /// Of each function, by its number, one more than the number of the variable that it counts down; 0 claims nothing.
    pub counts: Vec<u32>,
    /// Of each global integer variable, by its number, which functions don't raise it, by their numbers. It may be empty where no function is said to count it down.
    pub keeps: Vec<Vec<bool>>,
    /// What loops over texts are measured by.
    pub measures: Vec<Measure>,
    /// Of each function, by its number, one more than the number of the measure by which it tells whether a loop may go on; 0 claims nothing.
    pub ends: Vec<u32>,
    /// Of each function, by its number, one more than the number of the measure that it lessens; 0 claims nothing.
    pub shortens: Vec<u32>,
    /// Of each function, by its number, what it does with integers on top of the stack.
    pub kinds: Vec<Kind>,
    /// Of each measure, what each function does, by its number.
    pub effects: Vec<Vec<Effect>>,
    /// What loops walk along.
    pub walks: Vec<Walk>,
    /// Of each function, by its number, one more than the number of the walk of which it is the test; 0 claims nothing.
    pub parts: Vec<u32>,
    /// Of each function, by its number, one more than the number of the walk whose place it moves on; 0 claims nothing.
    pub moves: Vec<u32>,
    /// Of each function, by its number, whether it is the test of a loop that counts down an integer on top of the stack; 0 claims nothing.
    pub asks: Vec<u32>,
    /// Of each function, by its number, whether it makes such an integer less; 0 claims nothing.
    pub lowers: Vec<u32>,
    /// Of each walk, what each function does to its text and its place.
    pub places: Vec<Vec<Effect>>,
    /// Of each walk, what each function does to its text and its size.
    pub sizes: Vec<Vec<Effect>>,
    /// Of each walk, which functions move its place on.
    pub movers: Vec<Vec<bool>>,
    /// What loops count up to.
    pub climbs: Vec<Climb>,
    /// Of each function, by its number, one more than the number of the climb of which it is the test; 0 claims nothing.
    pub limits: Vec<u32>,
    /// Of each function, by its number, one more than the number of the climb whose place it raises; 0 claims nothing.
    pub raises: Vec<u32>,
    /// Of each climb, what each function does to its text and its place.
    pub climb_places: Vec<Vec<Effect>>,
    /// Of each climb, what each function does to its text and its size.
    pub climb_sizes: Vec<Vec<Effect>>,
    /// What loops put a shorter text in the place of one on top of the stack.
    pub replacements: Vec<Replacement>,
    /// Of each function, by its number, whether it is the test of a loop over a text on top of the stack; 0 claims nothing.
    pub filled: Vec<u32>,
    /// Of each function, by its number, one more than the number of the replacement that it makes of such a text; 0 claims nothing.
    pub replaces: Vec<u32>,
    /// Of each replacement, what each function does to the text that is kept while it is cut.
    pub texts: Vec<Vec<Effect>>,
    /// Of each replacement, what each function does to the text that is given.
    pub givens: Vec<Vec<Effect>>,
    /// How many global integer variables there are at least.
    pub integers: u32,
    /// How many bytes a global string variable keeps at most.
    pub kept: u32,
}

impl Certificate {
    /// The claims, with these on costs in place of its own.
    pub(crate) fn claims<'c>(&'c self, costs: &'c [u64]) -> Claims<'c>
        ensures { (claims_of result).kept ≡ self.now.kept }
    {
        Claims {
            costs,
            types: self.types,
            bounds: self.bounds.as_slice(),
            tests: self.tests.as_slice(),
            counts: self.counts.as_slice(),
            ends: self.ends.as_slice(),
            shortens: self.shortens.as_slice(),
            parts: self.parts.as_slice(),
            moves: self.moves.as_slice(),
            limits: self.limits.as_slice(),
            raises: self.raises.as_slice(),
            asks: self.asks.as_slice(),
            lowers: self.lowers.as_slice(),
            filled: self.filled.as_slice(),
            replaces: self.replaces.as_slice(),
            integers: self.integers,
            kept: self.kept,
        }
    }
}

// Answers whether a claim holds of a function's body: a call takes a step, and then those of the body.
fn holds(claims: Claims<'_>, body: &[Token], claim: u64) -> bool
    ensures { IsTrue result → within.BodyWithin (claims_of claims.entry) body.now claim }
{
    if claim == 0 {
        return true;
    }
    match body_cost(claims, body) {
        None => false,
        Some(cost) => cost < claim,
    }
}

// Answers whether all claims on costs hold of the style's bodies.
fn bodies_hold(style: &Style, claims: Claims<'_>) -> bool
    ensures { IsTrue result → within.BodiesWithin (claims_of claims.entry) style.now }
{
    if claims.costs.len() > style.functions() {
        return false;
    }
    for number in 0..claims.costs.len() {
        if !holds(claims, style.body(number), claims.costs[number]) {
            return false;
        }
    }
    true
}

// Answers whether a function that `call.type$` may call takes no more than is claimed of all of these.
fn type_holds(claims: Claims<'_>, number: u32) -> bool
    ensures { IsTrue result → within.CalleeWithin (claims_of claims.entry) claims.entry.types (callee.User number) }
{
    let claim = claim_of(claims.costs, number as usize);
    claim != 0 && claim <= claims.types
}

// Answers whether that is so of the allowed types.
fn allowed_hold(claims: Claims<'_>, allowed: &[u32]) -> bool
    ensures { IsTrue result → within.OwnWithin (claims_of claims.entry) allowed.now }
{
    for number in allowed {
        if !type_holds(claims, *number) {
            return false;
        }
    }
    true
}

// Answers whether that is so of `default.type`, if the style has it.
fn default_holds(style: &Style, claims: Claims<'_>) -> bool
    ensures { IsTrue result → within.DefaultWithin (claims_of claims.entry) style.now }
{
    match style.type_function(b"default.type") {
        None => true,
        Some(number) => type_holds(claims, number),
    }
}

// Answers whether a body is the test that it is claimed to be.
fn test_holds(claim: u32, body: &[Token]) -> bool
    ensures { IsTrue result → within.TestHolds claim body.now }
{
    if claim == 0 {
        return true;
    }
    is_test(claim - 1, body)
}

// Answers whether that is so of all functions.
fn tests_hold(style: &Style, tests: &[u32]) -> bool
    ensures { IsTrue result → within.TestsHold tests.now style.now }
{
    if tests.len() > style.functions() {
        return false;
    }
    for number in 0..tests.len() {
        if !test_holds(tests[number], style.body(number)) {
            return false;
        }
    }
    true
}

// Answers whether a body counts the variable down that it is claimed to count down, by what is said of the functions that don't raise each variable.
fn count_holds(style: &Style, claim: u32, keeps: &[Vec<bool>], body: &[Token]) -> bool
    ensures { IsTrue result → within.CountHolds style.now claim body.now }
{
    if claim == 0 {
        return true;
    }
    let v = claim - 1;
    if v as usize >= keeps.len() {
        return false;
    }
    let keeps = keeps[v as usize].as_slice();
    is_counting(keeps, v, body) && functions_keep(style, keeps, v)
}

// Answers whether that is so of all functions.
fn counts_hold(style: &Style, counts: &[u32], keeps: &[Vec<bool>]) -> bool
    ensures { IsTrue result → within.CountsHold counts.now style.now }
{
    if counts.len() > style.functions() {
        return false;
    }
    for number in 0..counts.len() {
        if !count_holds(style, counts[number], keeps, style.body(number)) {
            return false;
        }
    }
    true
}

// The measure of a number; past the last one that of a text, without a flag.
fn measure_of(measures: &[Measure], k: usize) -> Measure
    ensures { result ≡ within.measures_by measures.now k }
{
    if k < measures.len() {
        measures[k]
    } else {
        Measure {
            text: 0,
            flag: 0,
            word: 0,
        }
    }
}

// Answers whether a function tells whether a loop may go on by the measure that is claimed.
fn end_holds(style: &Style, measures: &[Measure], claim: u32, number: usize) -> bool
    requires { number < length style.now.bodies }
    ensures { IsTrue result → within.EndHolds style.now (within.measures_by measures.now) claim number }
{
    if claim == 0 {
        return true;
    }
    let m = measure_of(measures, (claim - 1) as usize);
    tells(style, m, style.body(number))
}

// Answers whether that is so of all functions.
fn ends_hold(style: &Style, measures: &[Measure], ends: &[u32]) -> bool
    ensures { IsTrue result → within.EndsHold style.now (within.measures_by measures.now) ends.now }
{
    if ends.len() > style.functions() {
        return false;
    }
    for number in 0..ends.len() {
        if !end_holds(style, measures, ends[number], number) {
            return false;
        }
    }
    true
}

/// Answers whether a function is said to make less of what is left.
pub(crate) fn is_shortening(effects: &[Effect], number: usize) -> bool
    ensures { IsTrue result → effects_by effects.now number ≡ effect.Shortens }
{
    match said_of(effects, number) {
        Effect::Shortens => true,
        _ => false,
    }
}

// Answers whether a function lessens a measure, by what is said of all functions.
fn lessens_by(style: &Style, m: Measure, kinds: &[Kind], effects: &[Effect], number: usize) -> bool
    ensures { IsTrue result → within.LessensBy style.now m (kinds_by kinds.now) (effects_by effects.now) number }
{
    is_shortening(effects, number)
        && kinds_hold(style, kinds)
        && effects_hold(style, m, kinds, effects)
}

// Answers whether a function lessens the measure that is claimed.
fn shorten_holds(
    style: &Style,
    measures: &[Measure],
    certificate: &Certificate,
    claim: u32,
    number: usize,
) -> bool
    ensures { IsTrue result → within.ShortenHolds style.now (within.measures_by measures.now) claim number }
{
    if claim == 0 {
        return true;
    }
    let k = (claim - 1) as usize;
    if k >= certificate.effects.len() {
        return false;
    }
    let effects = certificate.effects[k].as_slice();
    let m = measure_of(measures, k);
    lessens_by(style, m, certificate.kinds.as_slice(), effects, number)
}

// Answers whether that is so of all functions.
fn shortens_hold(
    style: &Style,
    measures: &[Measure],
    certificate: &Certificate,
    shortens: &[u32],
) -> bool
    ensures { IsTrue result → within.ShortensHold style.now (within.measures_by measures.now) shortens.now }
{
    for number in 0..shortens.len() {
        if !shorten_holds(style, measures, certificate, shortens[number], number) {
            return false;
        }
    }
    true
}

// Answers whether all flags are variables that are there.
fn flags_hold(measures: &[Measure], integers: u32) -> bool
    ensures { IsTrue result → within.FlagsHold (within.measures_by measures.now) integers }
{
    for m in measures {
        if m.flag > integers {
            return false;
        }
    }
    true
}

// Answers whether a style has at least this number of global integer variables.
fn has_integers(style: &Style, count: u32) -> bool
    ensures { IsTrue result → count ≤ length style.now.names.global_integers }
{
    count as usize <= style.global_integers()
}

// Answers whether all claims on loops over texts hold.
fn texts_hold(style: &Style, claims: Claims<'_>, certificate: &Certificate) -> bool
    ensures { IsTrue result → within.TextsHold (claims_of claims.entry) style.now }
{
    let measures = certificate.measures.as_slice();
    if !ends_hold(style, measures, claims.ends) {
        return false;
    }
    if !shortens_hold(style, measures, certificate, claims.shortens) {
        return false;
    }
    if !flags_hold(measures, claims.integers) {
        return false;
    }
    has_integers(style, claims.integers)
}

// Answers whether nothing is claimed of `entry.max$` and `global.max$`.
fn first_unclaimed(bounds: &[u64]) -> bool
    ensures { IsTrue result → within.FirstUnclaimed bounds.now }
{
    claim_of(bounds, 0) == 0 && claim_of(bounds, 1) == 0
}

// Answers whether all claims hold of the style's functions.
fn functions_hold(style: &Style, allowed: &[u32], claims: Claims<'_>) -> bool
    ensures { IsTrue result → within.FunctionsWithin (claims_of claims.entry) allowed.now style.now }
{
    bodies_hold(style, claims) && allowed_hold(claims, allowed) && default_holds(style, claims)
}

// Answers whether all claims on loops and variables hold.
fn loops_hold(style: &Style, claims: Claims<'_>, certificate: &Certificate) -> bool
    ensures { IsTrue result → within.LoopsHold (claims_of claims.entry) style.now }
{
    tests_hold(style, claims.tests)
        && counts_hold(style, claims.counts, certificate.keeps.as_slice())
        && first_unclaimed(claims.bounds)
        && texts_hold(style, claims, certificate)
        && walks_hold(style, claims, certificate)
        && climbs_hold(style, claims, certificate)
        && descending_holds(style, claims, certificate.kinds.as_slice())
        && replacing_holds(style, claims, certificate)
}

/// Judges a certificate: answers the bound of a style's runs, for entries of the types that are allowed or that the style doesn't know, where global string
/// variables keep no more bytes than it says. None if a claim doesn't hold, or the claims aren't enough.
pub fn ends(style: &Style, allowed: &[u32], certificate: &Certificate) -> Option<Bound>
    ensures { IfSome result (λ bound. StyleEnds style.now allowed.now certificate.now.kept bound.once bound.each) }
{
    let claims = certificate.claims(certificate.costs.as_slice());
    if !functions_hold(style, allowed, claims) {
        return None;
    }
    if !loops_hold(style, claims, certificate) {
        return None;
    }
    items_cost(claims, style.items())
}

// .. for this number of bytes
fn judged(style: &Style, allowed: &[u32], kept: u32, certificate: &Certificate) -> Option<Bound>
    ensures { IfSome result (λ bound. StyleEnds style.now allowed.now kept bound.once bound.each) }
{
    if certificate.kept != kept {
        return None;
    }
    ends(style, allowed, certificate)
}

// Answers the bound, by a certificate that claims nothing of variables: then `:=` may have any operands.
fn check_without_loops(
    alloc: Global,
    style: &Style,
    allowed: &[u32],
    kept: u32,
) -> Result<Option<Bound>, AllocError>
    ensures { IfOk result (λ found. IfSome found (λ bound. StyleEnds style.now allowed.now kept bound.once bound.each)) }
{
    let certificate = proposed(alloc, style, allowed, kept, false)?;
    Ok(judged(style, allowed, kept, &certificate))
}

/// Answers the bound of a style's runs, if the style is known to end, for entries of the types that are allowed or that the style doesn't know, where global
/// string variables keep at most `kept` bytes. `allowed` are the numbers of functions of the style.
pub fn check(
    alloc: Global,
    style: &Style,
    allowed: &[u32],
    kept: u32,
) -> Result<Option<Bound>, AllocError>
    ensures { IfOk result (λ found. IfSome found (λ bound. StyleEnds style.now allowed.now kept bound.once bound.each)) }
{
    let certificate = proposed(alloc, style, allowed, kept, true)?;
    match judged(style, allowed, kept, &certificate) {
        Some(bound) => Ok(Some(bound)),
        None => check_without_loops(alloc, style, allowed, kept),
    }
}

//! How many steps a token, a body and a style's items take at most, by the claims of a certificate.
ghost use Rattle.std.specs.Prelude.{◌≡◌, ◌≤◌, ◌⊎◌, IsTrue, true, IfSome, length};
ghost use Rattle.btx_bst.specs.declared.callee.Callee.TheVariants as callee;
ghost use Rattle.btx_bst.specs.refinement.Views.{item_view, items_view};
ghost use Rattle.btx_ends.specs.declared.known.Known.TheVariants as known;
ghost use Rattle.btx_ends.specs.Certificates as within;
ghost use Rattle.btx_ends.specs.Views.{claims_of};

use crate::claims::{Claims, claim_of, number_for};
use crate::known::Known;
use crate::literals::{below_after, top_after};
use btx_bst::{BuiltIn, Callee, Item, Token};

// Answers how many steps a built-in function takes by its name alone. An `if$` and a `while$` are judged with the functions that they take.
fn built_in_cost(claims: Claims<'_>, f: BuiltIn) -> Option<u64>
    ensures { IfSome result (λ most. within.CalleeWithin (claims_of claims.entry) most (callee.BuiltIn f)) }
{
    match f {
        BuiltIn::If => None,
        BuiltIn::While => None,
        BuiltIn::Assign => unclaimed_cost(claims),
        BuiltIn::CallType => claims.types.checked_add(1),
        _ => Some(1),
    }
}

// Answers how many steps an `:=` takes of which nothing is known: one, if nothing is claimed of variables.
fn unclaimed_cost(claims: Claims<'_>) -> Option<u64>
    ensures { IfSome result (λ most. (length claims.entry.bounds.now ≡ 0) × (1 ≤ most)) }
{
    if claims.bounds.len() == 0 {
        Some(1)
    } else {
        None
    }
}

/// Answers how many steps a callee takes at most: a claim, if it is a function of the style. None if it has no bound.
pub(crate) fn callee_cost(claims: Claims<'_>, f: Callee) -> Option<u64>
    ensures { IfSome result (λ most. within.CalleeWithin (claims_of claims.entry) most f) }
{
    match f {
        Callee::BuiltIn(f) => built_in_cost(claims, f),
        Callee::User(number) => {
            let claim = claim_of(claims.costs, number as usize);
            if claim == 0 {
                return None;
            }
            Some(claim)
        }
        Callee::Field(_) => Some(1),
        Callee::EntryInteger(_) => Some(1),
        Callee::EntryString(_) => Some(1),
        Callee::GlobalInteger(_) => Some(1),
        Callee::GlobalString(_) => Some(1),
    }
}

// Answers how many steps an `if$` over two functions takes at most: its own step, and those of the dearer one.
fn dearer_cost(claims: Claims<'_>, top: Callee, below: Callee) -> Option<u64>
    ensures { IfSome result (λ most. within.DearerWithin (claims_of claims.entry) most top below) }
{
    let first = callee_cost(claims, top)?;
    let second = callee_cost(claims, below)?;
    let dearer = if first < second { second } else { first };
    dearer.checked_add(1)
}

// Answers how many steps an `if$` takes at most, where this is known of the two literals on top of the stack.
fn choice_cost(claims: Claims<'_>, top: Known, below: Known) -> Option<u64>
    ensures { IfSome result (λ most. within.ChoiceWithin (claims_of claims.entry) most top below) }
{
    match (top, below) {
        (Known::Function(top), Known::Function(below)) => dearer_cost(claims, top, below),
        _ => None,
    }
}

// Answers how many steps a loop takes at most whose body counts down the variable that its test looks at: its own step, and those of each turn.
fn counted_cost(claims: Claims<'_>, body: u32, test: u32) -> Option<u64>
    ensures { IfSome result (λ most. within.CountedWithin (claims_of claims.entry) most body test) }
{
    let counted = number_for(claims.tests, test as usize);
    if counted == 0 || number_for(claims.counts, body as usize) != counted {
        return None;
    }
    let turns = claim_of(claims.bounds, (counted - 1) as usize);
    let cost = claim_of(claims.costs, body as usize);
    if turns == 0 || cost == 0 {
        return None;
    }
    let turn = cost.checked_add(4)?;
    let all = turns.checked_mul(turn)?;
    all.checked_add(1)
}

// .. whose turns make a text shorter or set a flag: its own step, and those of each turn.
fn shortened_cost(claims: Claims<'_>, body: u32, test: u32) -> Option<u64>
    ensures { IfSome result (λ most. within.ShortenedWithin (claims_of claims.entry) most body test) }
{
    let ended = number_for(claims.ends, test as usize);
    if ended == 0 || number_for(claims.shortens, body as usize) != ended {
        return None;
    }
    let of_test = claim_of(claims.costs, test as usize);
    let of_body = claim_of(claims.costs, body as usize);
    if of_test == 0 || of_body == 0 {
        return None;
    }
    let turn = of_test.checked_add(of_body)?;
    let turns = claims.kept as u64 + 1;
    let all = turns.checked_mul(turn)?;
    all.checked_add(1)
}

// .. whose turns walk along a text: its own step, and those of each turn.
fn walked_cost(claims: Claims<'_>, body: u32, test: u32) -> Option<u64>
    ensures { IfSome result (λ most. within.WalkedWithin (claims_of claims.entry) most body test) }
{
    let told = number_for(claims.parts, test as usize);
    if told == 0 || number_for(claims.moves, body as usize) != told {
        return None;
    }
    let of_test = claim_of(claims.costs, test as usize);
    let of_body = claim_of(claims.costs, body as usize);
    if of_test == 0 || of_body == 0 {
        return None;
    }
    let turn = of_test.checked_add(of_body)?;
    let turns = 2 * (claims.kept as u64) + 1;
    let all = turns.checked_mul(turn)?;
    all.checked_add(1)
}

// .. whose turns raise a place below a limit: its own step, and those of each turn.
fn climbed_cost(claims: Claims<'_>, body: u32, test: u32) -> Option<u64>
    ensures { IfSome result (λ most. within.ClimbedWithin (claims_of claims.entry) most body test) }
{
    let told = number_for(claims.limits, test as usize);
    if told == 0 || number_for(claims.raises, body as usize) != told {
        return None;
    }
    let of_test = claim_of(claims.costs, test as usize);
    let of_body = claim_of(claims.costs, body as usize);
    if of_test == 0 || of_body == 0 {
        return None;
    }
    let turn = of_test.checked_add(of_body)?;
    let turns: u64 = (1 << 32) + 1;
    let all = turns.checked_mul(turn)?;
    all.checked_add(1)
}

// .. whose turns count an integer down that stands on top of the stack: its own step, and those of each turn.
fn lowered_cost(claims: Claims<'_>, body: u32, test: u32) -> Option<u64>
    ensures { IfSome result (λ most. within.LoweredWithin (claims_of claims.entry) most body test) }
{
    if number_for(claims.asks, test as usize) == 0
        || number_for(claims.lowers, body as usize) == 0
    {
        return None;
    }
    let of_test = claim_of(claims.costs, test as usize);
    let of_body = claim_of(claims.costs, body as usize);
    if of_test == 0 || of_body == 0 {
        return None;
    }
    let turn = of_test.checked_add(of_body)?;
    let turns: u64 = (1 << 31) + 1;
    let all = turns.checked_mul(turn)?;
    all.checked_add(1)
}

// .. whose turns put a shorter text in the place of one on top of the stack: its own step, and those of each turn.
fn replaced_cost(claims: Claims<'_>, body: u32, test: u32) -> Option<u64>
    ensures { IfSome result (λ most. within.ReplacedWithin (claims_of claims.entry) most body test) }
{
    if number_for(claims.filled, test as usize) == 0
        || number_for(claims.replaces, body as usize) == 0
    {
        return None;
    }
    let of_test = claim_of(claims.costs, test as usize);
    let of_body = claim_of(claims.costs, body as usize);
    if of_test == 0 || of_body == 0 {
        return None;
    }
    let turn = of_test.checked_add(of_body)?;
    let turns = claims.kept as u64 + 2;
    let all = turns.checked_mul(turn)?;
    all.checked_add(1)
}

// .. that count such an integer down, or shorten such a text
fn stack_cost(claims: Claims<'_>, body: u32, test: u32) -> Option<u64>
    ensures { IfSome result (λ most. within.LoweredWithin (claims_of claims.entry) most body test ⊎ within.ReplacedWithin (claims_of claims.entry) most body test) }
{
    match lowered_cost(claims, body, test) {
        Some(cost) => Some(cost),
        None => replaced_cost(claims, body, test),
    }
}

// .. or raise a place up to a limit
fn integer_cost(claims: Claims<'_>, body: u32, test: u32) -> Option<u64>
    ensures { IfSome result (λ most. within.ClimbedWithin (claims_of claims.entry) most body test ⊎ (within.LoweredWithin (claims_of claims.entry) most body test ⊎ within.ReplacedWithin (claims_of claims.entry) most body test)) }
{
    match climbed_cost(claims, body, test) {
        Some(cost) => Some(cost),
        None => stack_cost(claims, body, test),
    }
}

// .. or move a place on along a text
fn place_cost(claims: Claims<'_>, body: u32, test: u32) -> Option<u64>
    ensures { IfSome result (λ most. within.WalkedWithin (claims_of claims.entry) most body test ⊎ (within.ClimbedWithin (claims_of claims.entry) most body test ⊎ (within.LoweredWithin (claims_of claims.entry) most body test ⊎ within.ReplacedWithin (claims_of claims.entry) most body test))) }
{
    match walked_cost(claims, body, test) {
        Some(cost) => Some(cost),
        None => integer_cost(claims, body, test),
    }
}

// .. or make a text shorter
fn text_cost(claims: Claims<'_>, body: u32, test: u32) -> Option<u64>
    ensures { IfSome result (λ most. within.ShortenedWithin (claims_of claims.entry) most body test ⊎ (within.WalkedWithin (claims_of claims.entry) most body test ⊎ (within.ClimbedWithin (claims_of claims.entry) most body test ⊎ (within.LoweredWithin (claims_of claims.entry) most body test ⊎ within.ReplacedWithin (claims_of claims.entry) most body test)))) }
{
    match shortened_cost(claims, body, test) {
        Some(cost) => Some(cost),
        None => place_cost(claims, body, test),
    }
}

// .. of any of these kinds
fn turns_cost(claims: Claims<'_>, body: u32, test: u32) -> Option<u64>
    ensures { IfSome result (λ most. within.TurnsWithin (claims_of claims.entry) most body test) }
{
    match counted_cost(claims, body, test) {
        Some(cost) => Some(cost),
        None => text_cost(claims, body, test),
    }
}

// Answers how many steps a `while$` takes at most, where this is known of the two literals on top of the stack.
fn loop_cost(claims: Claims<'_>, top: Known, below: Known) -> Option<u64>
    ensures { IfSome result (λ most. within.LoopWithin (claims_of claims.entry) most top below) }
{
    match (top, below) {
        (Known::Function(Callee::User(body)), Known::Function(Callee::User(test))) => {
            turns_cost(claims, body, test)
        }
        _ => None,
    }
}

// Answers whether a value is no greater than a claim on a variable allows.
fn value_fits(claim: u64, value: Known) -> bool
    ensures { IsTrue result → within.ValueWithin claim value }
{
    if claim == 0 {
        return true;
    }
    match value {
        Known::AtMost(most) => most < claim,
        Known::Integer(n) => n < 0 || (n as u64) < claim,
        _ => false,
    }
}

// Answers how many steps an `:=` takes, where this is known of the variable on top of the stack and of the value below it. None if it may break a claim.
fn assign_cost(claims: Claims<'_>, top: Known, value: Known) -> Option<u64>
    ensures { IfSome result (λ most. within.AssignsWithin (claims_of claims.entry) top value × (1 ≤ most)) }
{
    match top {
        Known::Function(Callee::GlobalInteger(v)) => {
            if value_fits(claim_of(claims.bounds, v as usize), value) {
                Some(1)
            } else {
                None
            }
        }
        Known::Function(_) => Some(1),
        _ => unclaimed_cost(claims),
    }
}

// Answers how many steps a token takes at most, where this is known of the literal on top of the stack and of the one below it.
fn step_cost(claims: Claims<'_>, top: Known, below: Known, token: Token) -> Option<u64>
    ensures { IfSome result (λ most. within.StepWithin (claims_of claims.entry) top below token most) }
{
    match token {
        Token::Run(Callee::BuiltIn(BuiltIn::If)) => choice_cost(claims, top, below),
        Token::Run(Callee::BuiltIn(BuiltIn::While)) => loop_cost(claims, top, below),
        Token::Run(Callee::BuiltIn(BuiltIn::Assign)) => assign_cost(claims, top, below),
        Token::Run(f) => callee_cost(claims, f),
        Token::Text(_) => Some(1),
        Token::Integer(_) => Some(1),
        Token::Quote(_) => Some(1),
    }
}

/// Answers how many steps the tokens of a body take at most. None if one of them has no bound, or the sum is above 2^64 - 1.
pub fn body_cost(claims: Claims<'_>, body: &[Token]) -> Option<u64>
    ensures { IfSome result (λ most. within.TokensWithin (claims_of claims.entry) known.Anything known.Anything body.now most) }
{
    let mut cost: u64 = 0;
    let mut top = Known::Anything;
    let mut below = Known::Anything;
    for token in body {
        let step = step_cost(claims, top, below, *token)?;
        cost = cost.checked_add(step)?;
        let after = top_after(claims, top, below, *token);
        below = below_after(top, *token);
        top = after;
    }
    Some(cost)
}

/// How many steps a run takes at most: `once` steps, and `each` more for each entry of the list.
#[derive(Clone, Copy, Debug, PartialEq, Eq)]
pub struct Bound {
    /// The steps of a run without entries.
    pub once: u64,
    /// The steps for each entry of the list.
    pub each: u64,
}

// Answers how many steps an item of a style takes at most.
fn item_cost(claims: Claims<'_>, item: &Item) -> Option<Bound>
    ensures { IfSome result (λ bound. within.ItemWithin (claims_of claims.entry) (item_view item.now) bound.once bound.each) }
{
    match *item {
        Item::Execute(f) => {
            let once = callee_cost(claims, f)?;
            Some(Bound { once, each: 0 })
        }
        Item::Iterate(f) => {
            let each = callee_cost(claims, f)?;
            Some(Bound { once: 0, each })
        }
        Item::Reverse(f) => {
            let each = callee_cost(claims, f)?;
            Some(Bound { once: 0, each })
        }
        _ => Some(Bound { once: 0, each: 0 }),
    }
}

/// Answers how many steps the items of a style take at most.
pub(crate) fn items_cost(claims: Claims<'_>, items: &[Item]) -> Option<Bound>
    ensures { IfSome result (λ bound. within.ItemsWithin (claims_of claims.entry) (items_view items.now) bound.once bound.each) }
{
    let mut once: u64 = 0;
    let mut each: u64 = 0;
    for item in items {
        let bound = item_cost(claims, item)?;
        once = once.checked_add(bound.once)?;
        each = each.checked_add(bound.each)?;
    }
    Some(Bound { once, each })
}

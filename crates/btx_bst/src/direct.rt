//! Direct styles.
ghost use Rattle.std.specs.Prelude.{◌≡◌, ◌↔◌, ◌<◌, IsTrue, length, slice_get};
ghost use Rattle.btx_bst.specs.language.Direct as spec;
ghost use Rattle.btx_bst.specs.refinement.Direct as kept_spec;

use crate::built_in::BuiltIn;
use crate::callee::Callee;
use crate::style::Style;
use crate::token::Token;

/// Whether a style is direct: each literal of a function of the style is one of two function literals side by side directly before an
/// executed `if$` or `while$`, and `call.type$` stands in no body.
#[tactic(auto, using(crate::proofs::DirectLemmas::direct_steps))]
pub fn is_direct(style: &Style<'_>) -> bool
    ensures { IsTrue result ↔ spec.IsDirect style.now }
{
    for number in 0..style.functions() {
        if !is_direct_body(style.body(number)) {
            return false;
        }
    }
    true
}

// Whether a body is direct.
#[tactic(auto, using(crate::proofs::DirectLemmas::direct_steps))]
fn is_direct_body(body: &[Token]) -> bool
    ensures { IsTrue result ↔ kept_spec.IsDirectBody body.now }
{
    for i in 0..body.len() {
        if !is_direct_at(body, i) {
            return false;
        }
    }
    true
}

// Whether what stands at a place of a body is direct.
#[tactic(auto, unfolding(crate::specs::language::Direct::is_direct_at))]
fn is_direct_at(body: &[Token], i: usize) -> bool
    requires { i < length body.now }
    ensures { result ≡ spec.is_direct_at body.now i }
{
    let token = body.get(i).copied();
    !is_call_type(token)
        && (!is_user_literal(token) || begins_pair(body, i) || (i > 0 && begins_pair(body, i - 1)))
}

// Whether two function literals begin at a place, directly before an `if$` or a `while$`.
#[tactic(auto, unfolding(crate::specs::language::Direct::begins_pair))]
fn begins_pair(body: &[Token], i: usize) -> bool
    requires { i < length body.now }
    ensures { result ≡ spec.begins_pair body.now i }
{
    is_literal(body.get(i).copied())
        && is_literal(body.get(i + 1).copied())
        && is_choice(body.get(i + 2).copied())
}

// Whether this is `call.type$`, executed or as a literal.
#[tactic(auto, unfolding(crate::specs::language::Direct::is_call_type))]
fn is_call_type(token: Option<Token>) -> bool
    ensures { result ≡ spec.is_call_type token }
{
    matches!(
        token,
        Some(
            Token::Quote(Callee::BuiltIn(BuiltIn::CallType))
                | Token::Run(Callee::BuiltIn(BuiltIn::CallType))
        )
    )
}

// Whether this is a literal of a function of the style.
#[tactic(auto, unfolding(crate::specs::language::Direct::is_user_literal))]
fn is_user_literal(token: Option<Token>) -> bool
    ensures { result ≡ spec.is_user_literal token }
{
    matches!(token, Some(Token::Quote(Callee::User(_))))
}

// Whether this is a literal of a function, a field or a variable.
#[tactic(auto, unfolding(crate::specs::language::Direct::is_literal))]
fn is_literal(token: Option<Token>) -> bool
    ensures { result ≡ spec.is_literal token }
{
    matches!(token, Some(Token::Quote(_)))
}

// Whether this is an `if$` or a `while$` that is executed.
#[tactic(auto, unfolding(crate::specs::language::Direct::is_choice))]
fn is_choice(token: Option<Token>) -> bool
    ensures { result ≡ spec.is_choice token }
{
    matches!(
        token,
        Some(Token::Run(Callee::BuiltIn(BuiltIn::If | BuiltIn::While)))
    )
}

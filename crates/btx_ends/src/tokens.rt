//! What single tokens are.
ghost use Rattle.std.specs.Prelude.{◌≡◌, IsTrue, true, IfSome};
ghost use Rattle.btx_bst.specs.declared.built_in.BuiltIn.TheVariants as built_in;
ghost use Rattle.btx_bst.specs.declared.callee.Callee.TheVariants as callee;
ghost use Rattle.btx_bst.specs.declared.token.Token.TheVariants as tokens;

use btx_bst::{BuiltIn, Callee, Token};

/// Answers the number of a text that a token pushes.
pub(crate) fn pushed_text(token: Token) -> Option<u32>
    ensures { IfSome result (λ word. token ≡ tokens.Text word) }
{
    match token {
        Token::Text(word) => Some(word),
        _ => None,
    }
}

/// Answers the number of the function of the style that a token executes, if it does; else 0.
pub(crate) fn called_by(token: Token) -> u32 {
    match token {
        Token::Run(Callee::User(n)) => n,
        _ => 0,
    }
}

/// Answers the number of the global integer variable whose value a token pushes, if it does; else 0.
pub(crate) fn pushed_variable(token: Token) -> u32 {
    match token {
        Token::Run(Callee::GlobalInteger(v)) => v,
        _ => 0,
    }
}

/// Answers whether a token executes this global string variable.
pub(crate) fn is_string(t: u32, token: Token) -> bool
    ensures { IsTrue result → token ≡ tokens.Run (callee.GlobalString t) }
{
    match token {
        Token::Run(Callee::GlobalString(i)) => i == t,
        _ => false,
    }
}

/// Answers whether a token pushes the value of the variable v.
pub(crate) fn is_value(v: u32, token: Token) -> bool
    ensures { IsTrue result → token ≡ tokens.Run (callee.GlobalInteger v) }
{
    match token {
        Token::Run(Callee::GlobalInteger(w)) => w == v,
        _ => false,
    }
}

/// Answers whether a token pushes the variable v itself.
pub(crate) fn is_variable(v: u32, token: Token) -> bool
    ensures { IsTrue result → token ≡ tokens.Quote (callee.GlobalInteger v) }
{
    match token {
        Token::Quote(Callee::GlobalInteger(w)) => w == v,
        _ => false,
    }
}

/// Answers the number of a global string variable that a token pushes itself, if it does; else 0.
pub(crate) fn quoted_text(token: Token) -> u32 {
    match token {
        Token::Quote(Callee::GlobalString(t)) => t,
        _ => 0,
    }
}

/// Answers the number of the function of the style that a token quotes, if it does; else 0.
pub(crate) fn quoted_by(token: Token) -> u32 {
    match token {
        Token::Quote(Callee::User(n)) => n,
        _ => 0,
    }
}

/// Answers whether a token pushes the global string variable t itself.
pub(crate) fn is_text_variable(t: u32, token: Token) -> bool
    ensures { IsTrue result → token ≡ tokens.Quote (callee.GlobalString t) }
{
    match token {
        Token::Quote(Callee::GlobalString(i)) => i == t,
        _ => false,
    }
}

/// Answers whether a token is this integer.
pub(crate) fn is_integer(n: i32, token: Token) -> bool
    ensures { IsTrue result → token ≡ tokens.Integer n }
{
    match token {
        Token::Integer(m) => m == n,
        _ => false,
    }
}

/// Answers whether a token pushes this text.
pub(crate) fn is_word(word: u32, token: Token) -> bool
    ensures { IsTrue result → token ≡ tokens.Text word }
{
    match token {
        Token::Text(w) => w == word,
        _ => false,
    }
}

/// Answers whether a token executes this function of the style.
pub(crate) fn is_call(number: u32, token: Token) -> bool
    ensures { IsTrue result → token ≡ tokens.Run (callee.User number) }
{
    match token {
        Token::Run(Callee::User(n)) => n == number,
        _ => false,
    }
}

/// Answers whether a token quotes this function of the style.
pub(crate) fn is_quoted(number: u32, token: Token) -> bool
    ensures { IsTrue result → token ≡ tokens.Quote (callee.User number) }
{
    match token {
        Token::Quote(Callee::User(n)) => n == number,
        _ => false,
    }
}

/// Answers whether a token quotes this function, which is `skip$` or one of the style.
pub(crate) fn is_quoted_as(f: Callee, token: Token) -> bool
    ensures { IsTrue result → token ≡ tokens.Quote f }
{
    match (f, token) {
        (Callee::BuiltIn(BuiltIn::Skip), Token::Quote(Callee::BuiltIn(BuiltIn::Skip))) => true,
        (Callee::User(number), Token::Quote(Callee::User(n))) => n == number,
        _ => false,
    }
}

/// Answers whether a token is `skip$`.
pub(crate) fn is_skip(token: Token) -> bool
    ensures { IsTrue result → token ≡ tokens.Run (callee.BuiltIn built_in.Skip) }
{
    match token {
        Token::Run(Callee::BuiltIn(BuiltIn::Skip)) => true,
        _ => false,
    }
}

/// Answers whether a token is `>`.
pub(crate) fn is_greater(token: Token) -> bool
    ensures { IsTrue result → token ≡ tokens.Run (callee.BuiltIn built_in.Greater) }
{
    match token {
        Token::Run(Callee::BuiltIn(BuiltIn::Greater)) => true,
        _ => false,
    }
}

/// Answers whether a token is `<`.
pub(crate) fn is_less_than(token: Token) -> bool
    ensures { IsTrue result → token ≡ tokens.Run (callee.BuiltIn built_in.Less) }
{
    match token {
        Token::Run(Callee::BuiltIn(BuiltIn::Less)) => true,
        _ => false,
    }
}

/// Answers whether a token is `text.length$`.
pub(crate) fn is_text_length(token: Token) -> bool
    ensures { IsTrue result → token ≡ tokens.Run (callee.BuiltIn built_in.TextLength) }
{
    match token {
        Token::Run(Callee::BuiltIn(BuiltIn::TextLength)) => true,
        _ => false,
    }
}

/// Answers whether a token is `+`.
pub(crate) fn is_plus(token: Token) -> bool
    ensures { IsTrue result → token ≡ tokens.Run (callee.BuiltIn built_in.Plus) }
{
    match token {
        Token::Run(Callee::BuiltIn(BuiltIn::Plus)) => true,
        _ => false,
    }
}

/// Answers whether a token is `-`.
pub(crate) fn is_minus(token: Token) -> bool
    ensures { IsTrue result → token ≡ tokens.Run (callee.BuiltIn built_in.Minus) }
{
    match token {
        Token::Run(Callee::BuiltIn(BuiltIn::Minus)) => true,
        _ => false,
    }
}

/// Answers whether a token is `=`.
pub(crate) fn is_equals(token: Token) -> bool
    ensures { IsTrue result → token ≡ tokens.Run (callee.BuiltIn built_in.Equals) }
{
    match token {
        Token::Run(Callee::BuiltIn(BuiltIn::Equals)) => true,
        _ => false,
    }
}

/// Answers whether a token is `:=`.
pub(crate) fn is_assign(token: Token) -> bool
    ensures { IsTrue result → token ≡ tokens.Run (callee.BuiltIn built_in.Assign) }
{
    match token {
        Token::Run(Callee::BuiltIn(BuiltIn::Assign)) => true,
        _ => false,
    }
}

/// Answers whether a token is `substring$`.
pub(crate) fn is_substring(token: Token) -> bool
    ensures { IsTrue result → token ≡ tokens.Run (callee.BuiltIn built_in.Substring) }
{
    match token {
        Token::Run(Callee::BuiltIn(BuiltIn::Substring)) => true,
        _ => false,
    }
}

/// Answers whether a token is `empty$`.
pub(crate) fn is_empty(token: Token) -> bool
    ensures { IsTrue result → token ≡ tokens.Run (callee.BuiltIn built_in.Empty) }
{
    match token {
        Token::Run(Callee::BuiltIn(BuiltIn::Empty)) => true,
        _ => false,
    }
}

/// Answers whether a token is `if$`.
pub(crate) fn is_if(token: Token) -> bool
    ensures { IsTrue result → token ≡ tokens.Run (callee.BuiltIn built_in.If) }
{
    match token {
        Token::Run(Callee::BuiltIn(BuiltIn::If)) => true,
        _ => false,
    }
}

/// Answers whether a token is `pop$`.
pub(crate) fn is_pop(token: Token) -> bool
    ensures { IsTrue result → token ≡ tokens.Run (callee.BuiltIn built_in.Pop) }
{
    match token {
        Token::Run(Callee::BuiltIn(BuiltIn::Pop)) => true,
        _ => false,
    }
}

/// Answers whether a token is `duplicate$`.
pub(crate) fn is_duplicate(token: Token) -> bool
    ensures { IsTrue result → token ≡ tokens.Run (callee.BuiltIn built_in.Duplicate) }
{
    match token {
        Token::Run(Callee::BuiltIn(BuiltIn::Duplicate)) => true,
        _ => false,
    }
}

/// Answers whether a token is `swap$`.
pub(crate) fn is_swap(token: Token) -> bool
    ensures { IsTrue result → token ≡ tokens.Run (callee.BuiltIn built_in.Swap) }
{
    match token {
        Token::Run(Callee::BuiltIn(BuiltIn::Swap)) => true,
        _ => false,
    }
}

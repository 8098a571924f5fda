//! The words of a body.
ghost use Rattle.std.specs.Prelude.{◌≡◌, ◌<◌, ◌+◌, ◌^◌, ◌++◌, ◌∷◌, [], IfOk, OnOk, List, ℕ, length};
ghost use Rattle.btx_bst.specs.language.BodyText.{body_end, body_turn, closed_inside, word_turn};
ghost use Rattle.btx_bst.specs.language.Names.{named};
ghost use Rattle.btx_bst.specs.language.Places.{Place};
ghost use Rattle.btx_bst.specs.language.Items as spec;
ghost use Rattle.btx_bst.specs.refinement.Views.{body_turn_view, body_end_view, inside_of_reader, inside_view, texts_view, word_view};
ghost use Rattle.btx_bst.specs.refinement.Weights.{body_weight};
ghost use Rattle.btx_bst.specs.laws.Recorded.{Records, body_recorded, function_recorded, turn_recorded};

use crate::bodies::Bodies;
use crate::callee::Callee;
use crate::complaint::Complaint;
use crate::cursor::Cursor;
use crate::item::Item;
use crate::message::logged;
use crate::names::Names;
use crate::open::Open;
use crate::recorder::Recording;
use crate::span::Stretch;
use crate::token::Token;
use crate::turn::Turn;
use crate::word::Word;
use btx_text::Lowered;
use std::alloc::{AllocError, Global};

/// Takes the words of a body up to its end, and records where they stand.
pub fn body<'a, R: Recording>(
    alloc: Global,
    cursor: &mut Cursor<'a>,
    names: &Names<'_>,
    current: &mut Open<Token>,
    bodies: &mut Bodies<Token>,
    texts: &mut Vec<&'a [u8]>,
    items: &mut Vec<Item<'a>>,
    recorder: &mut R,
) -> Result<Option<Complaint<'a>>, AllocError>
    requires { body_weight cursor.old bodies.old (texts_view texts.old.items) < 2 ^ 32 }
    ensures body { IfOk result (λ complaint. body_end_view complaint (inside_view cursor.new current.new bodies.new texts.new.items items.new.items)
        ≡ body_end names.now (inside_view cursor.old current.old bodies.old texts.old.items items.old.items)) }
    ensures recorded { OnOk result (Records (function_recorded names.now (inside_view cursor.old current.old bodies.old texts.old.items items.old.items))
        (R.recorded recorder.old) (R.recorded recorder.new)) }
{
    let count = recorder.begin();
    let complaint = words(
        alloc, cursor, names, current, bodies, texts, items, recorder,
    )?;
    recorder.end(count, complaint.is_none())?;
    Ok(complaint)
}

// Takes the words of a body up to its end.
#[tactic(auto, using(crate::proofs::BodyTurnLemmas::body_steps))]
fn words<'a, R: Recording>(
    alloc: Global,
    cursor: &mut Cursor<'a>,
    names: &Names<'_>,
    current: &mut Open<Token>,
    bodies: &mut Bodies<Token>,
    texts: &mut Vec<&'a [u8]>,
    items: &mut Vec<Item<'a>>,
    recorder: &mut R,
) -> Result<Option<Complaint<'a>>, AllocError>
    requires { body_weight cursor.old bodies.old (texts_view texts.old.items) < 2 ^ 32 }
    ensures body { IfOk result (λ complaint. body_end_view complaint (inside_view cursor.new current.new bodies.new texts.new.items items.new.items)
        ≡ body_end names.now (inside_view cursor.old current.old bodies.old texts.old.items items.old.items)) }
    ensures recorded { OnOk result (Records (body_recorded names.now (inside_view cursor.old current.old bodies.old texts.old.items items.old.items))
        (R.recorded recorder.old) (R.recorded recorder.new)) }
{
    loop {
        match turn(
            alloc, cursor, names, current, bodies, texts, items, recorder,
        )? {
            Turn::Again => {}
            Turn::Whole => return Ok(None),
            Turn::Broken(complaint) => return Ok(Some(complaint)),
        }
    }
}

/// What a name names.
pub fn find(alloc: Global, names: &Names<'_>, name: &[u8]) -> Result<Option<Callee>, AllocError>
    ensures { IfOk result (λ callee. callee ≡ named names.now name.now) }
{
    let lowered = Lowered::of(alloc, name)?;
    Ok(names.find(lowered.as_bytes()))
}

// Takes a word, and records where it stands.
#[tactic(auto, unfolding(crate::specs::language::BodyText::body_turn))]
fn turn<'a, R: Recording>(
    alloc: Global,
    cursor: &mut Cursor<'a>,
    names: &Names<'_>,
    current: &mut Open<Token>,
    bodies: &mut Bodies<Token>,
    texts: &mut Vec<&'a [u8]>,
    items: &mut Vec<Item<'a>>,
    recorder: &mut R,
) -> Result<Turn<'a>, AllocError>
    requires { body_weight cursor.old bodies.old (texts_view texts.old.items) < 2 ^ 32 }
    ensures turn { IfOk result (λ turn. body_turn_view turn (inside_view cursor.new current.new bodies.new texts.new.items items.new.items)
        ≡ body_turn names.now (inside_view cursor.old current.old bodies.old texts.old.items items.old.items)) }
    ensures recorded { OnOk result (Records (turn_recorded names.now (inside_view cursor.old current.old bodies.old texts.old.items items.old.items))
        (R.recorded recorder.old) (R.recorded recorder.new)) }
{
    cursor.go_to_ink();
    let from = cursor.spot();
    let word = cursor.word();
    let to = cursor.spot();
    let count = items.len();
    let turn = take(
        alloc,
        word,
        cursor.number(),
        names,
        current,
        bodies,
        texts,
        items,
    )?;
    recorder.word(word, Stretch { from, to }, items.len() > count)?;
    Ok(turn)
}

// Takes a word, which was met on this line.
#[inline(always)]
fn take<'a>(
    alloc: Global,
    word: Word<'a>,
    line: usize,
    names: &Names<'_>,
    current: &mut Open<Token>,
    bodies: &mut Bodies<Token>,
    texts: &mut Vec<&'a [u8]>,
    items: &mut Vec<Item<'a>>,
) -> Result<Turn<'a>, AllocError>
    requires { length bodies.old + length (texts_view texts.old.items) < 2 ^ 32 }
    ensures { IfOk result (λ turn. (place : Place) → place.number ≡ line → body_turn_view turn (inside_view place current.new bodies.new texts.new.items items.new.items)
        ≡ word_turn names.now (inside_view place current.old bodies.old texts.old.items items.old.items) (word_view word.entry)) }
{
    match word {
        Word::Open => current.open()?,
        Word::Close => return close(current, bodies),
        Word::String(text) => {
            let number = texts.len() as u32;
            texts.push(text)?;
            current.push(Token::Text(number))?;
        }
        Word::Integer(value) => current.push(Token::Integer(value))?,
        Word::Quoted(name) => match find(alloc, names, name)? {
            Some(callee) => current.push(Token::Quote(callee))?,
            None => items.push(logged(Complaint::Unknown(name), line))?,
        },
        Word::Name(name) => match find(alloc, names, name)? {
            Some(callee) => current.push(Token::Run(callee))?,
            None => items.push(logged(Complaint::Unknown(name), line))?,
        },
        Word::Faulty(complaint) => items.push(logged(complaint, line))?,
        Word::Unended => return Ok(Turn::Broken(Complaint::NoQuoteEnd)),
        Word::Ended => return Ok(Turn::Broken(Complaint::EndOfFile)),
    }
    Ok(Turn::Again)
}

// Takes a `}`: the innermost function is defined, if it is a nameless one.
fn close<'a>(current: &mut Open<Token>, bodies: &mut Bodies<Token>) -> Result<Turn<'a>, AllocError>
    requires { length bodies.old < 2 ^ 32 }
    ensures { IfOk result (λ turn. (place : Place) → (texts : List (List ℕ)) → (items : List spec.Item)
        → body_turn_view turn (inside_of_reader place current.new bodies.new texts items)
        ≡ closed_inside (inside_of_reader place current.old bodies.old texts items) current.old.around) }
{
    if !current.is_nested() {
        return Ok(Turn::Whole);
    }
    let number = bodies.len() as u32;
    bodies.add(current.tokens())?;
    current.leave();
    current.push(Token::Quote(Callee::User(number)))?;
    Ok(Turn::Again)
}

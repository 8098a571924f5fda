//! The notes of a run: where it stood, as text, a line each.
ghost use Rattle.std.specs.Prelude.{◌≡◌, ◌++◌, OnOk, IfOk, codes, map, slice_get, take};
ghost use Rattle.std.specs.Str.{bytes_eq};
ghost use Rattle.btx_bst.specs.refinement.Views.{items_view};
ghost use Rattle.btx_code.specs.refinement.Codes.{bodies_of};
ghost use Rattle.btx_where.specs.Lines.{line_of_part};
ghost use Rattle.btx_where.specs.Notes as spec;

use crate::course::{Event, Word};
use crate::place::{Place, function_name, place_before};
use crate::scene::{Level, StoppedState};
use btx_bst::{Callee, Item, Span, Style, StylePlaces, Token};
use btx_code::Code;
use btx_stack::Literal;
use btx_step::lines::line_of;
use btx_step::{Job, Note};
use btx_text::log_texts::{push_number, push_two};
use std::alloc::{AllocError, Global};

// How many bytes of a text are shown.
const MOST_SHOWN: usize = 200;

// How many callers are shown.
const MOST_CALLERS: usize = 64;

/// A style, with its code and its places.
#[derive(Drop)]
pub struct Known<'s> {
    pub style: &'s Style<'s>,
    pub code: &'s Code,
    pub places: &'s StylePlaces,
    pub ghost coded: { bodies_of code.now ≡ style.now.bodies },
}

// The line in which a part of a style's text begins; 0 where there is no such part.
fn line_of_part(part: Option<Span>) -> usize
    ensures { result ≡ line_of_part part }
{
    match part {
        Some(part) => part.line,
        None => 0,
    }
}

// Whether a function has no name.
fn is_nameless(style: &Style<'_>, function: usize) -> bool
    ensures { result ≡ bytes_eq (spec.function_name style.now function) (codes "{}") }
{
    function_name(style, function) == b"{}".as_slice()
}

// The named function in whose command a function stands: itself, or the next one that has a name.
#[tactic(auto, unfolding(crate::specs::Notes::owner_of))]
fn owner(style: &Style<'_>, function: usize) -> usize
    ensures { result ≡ spec.owner_of style.now function }
{
    for number in function..style.functions() {
        if !is_nameless(style, number) {
            return number;
        }
    }
    function
}

// A byte that ends no line.
fn printed(byte: u8) -> u8
    ensures { result ≡ spec.printed byte }
{
    if byte < 32 || byte == 127 { b'?' } else { byte }
}

// The beginning of a text, as much of it as is shown.
fn beginning(text: &[u8]) -> &[u8]
    ensures { result.now ≡ take MOST_SHOWN text.now }
{
    if text.len() <= MOST_SHOWN {
        text
    } else {
        &text[..MOST_SHOWN]
    }
}

// Appends a text without its control bytes.
fn push_printed(notes: &mut Vec<u8>, text: &[u8]) -> Result<(), AllocError>
    ensures { OnOk result (notes.new.items ≡ notes.old.items ++ map spec.printed text.now) }
{
    for byte in text {
        notes.push(printed(*byte))?;
    }
    Ok(())
}

// Appends the beginning of a text, and ends the line.
#[tactic(auto, using(btx_text::proofs::JoinLemmas::joins), unfolding(crate::specs::Notes::shown))]
fn push_shown(notes: &mut Vec<u8>, text: &[u8]) -> Result<(), AllocError>
    ensures { OnOk result (notes.new.items ≡ notes.old.items ++ spec.shown text.now) }
{
    push_printed(notes, beginning(text))?;
    notes.extend_from_slice(b"\n")
}

// Appends a line of a piece and a text.
#[tactic(auto, using(btx_text::proofs::JoinLemmas::joins))]
fn push_line(notes: &mut Vec<u8>, piece: &[u8], text: &[u8]) -> Result<(), AllocError>
    ensures { OnOk result (notes.new.items ≡ notes.old.items ++ (piece.now ++ spec.shown text.now)) }
{
    notes.extend_from_slice(piece)?;
    push_shown(notes, text)
}

// Notes the current entry of a job, if there is one.
fn note_entry(notes: &mut Vec<u8>, job: &Job<'_>, entry: Option<usize>) -> Result<(), AllocError>
    ensures { OnOk result (notes.new.items ≡ notes.old.items ++ spec.entry_note job.now entry) }
{
    match entry {
        Some(entry) => push_line(notes, b"entry ", job.key(entry)),
        None => notes.extend_from_slice(b""),
    }
}

impl<'s> Known<'s> {
    ghost use Rattle.std.specs.Prelude.{◌≡◌, ◌++◌, IfOk, OnOk, length, slice_get, codes};
    ghost use Rattle.std.specs.List.{flat_map};
    ghost use Rattle.btx_bst.specs.refinement.Views.{items_view};
    ghost use Rattle.btx_where.specs.Lines.{item_line, token_line};
    ghost use Rattle.btx_where.specs.Notes as spec;

    // The line of a token.
    fn token_line(&self, place: Place) -> usize
        ensures { result ≡ token_line self.now.places.now place }
    {
        line_of_part(self.places.token(place.function, place.token))
    }

    // The line of the item of a number.
    fn item_line(&self, item: usize) -> usize
        ensures { result ≡ item_line self.now.places.now item }
    {
        line_of_part(self.places.item(item))
    }

    /// Notes a token after a word: whether it stands in a function with a name or in one in braces, its line, the numbers of its function and of the token, and the
    /// name of the function, or of the one round it.
    #[tactic(auto, using(btx_text::proofs::JoinLemmas::joins), unfolding(crate::specs::Notes::place_note))]
    pub fn note_place(
        &self,
        notes: &mut Vec<u8>,
        word: &[u8],
        place: Place,
    ) -> Result<(), AllocError>
        ensures { OnOk result (notes.new.items ≡ notes.old.items ++ spec.place_note self.now.style.now (token_line self.now.places.now) word.now place) }
    {
        let owner = owner(self.style, place.function);
        let inside: &[u8] = if owner == place.function {
            b" in "
        } else {
            b" of "
        };
        push_two(notes, word, inside)?;
        push_number(notes, b"", self.token_line(place) as u64)?;
        push_number(notes, b" ", place.function as u64)?;
        push_number(notes, b" ", place.token as u64)?;
        push_line(notes, b" ", function_name(self.style, owner))
    }

    /// The token before a place of the code.
    pub fn token_before(&self, place: usize) -> Option<Place> {
        place_before(self.code, self.style, place)
    }

    // Notes the command `word` of an item, the item's line, and the function of the command.
    #[tactic(auto, using(btx_text::proofs::JoinLemmas::joins))]
    fn note_command(
        &self,
        notes: &mut Vec<u8>,
        word: &[u8],
        item: usize,
        callee: Callee,
    ) -> Result<(), AllocError>
        ensures { OnOk result (notes.new.items ≡ notes.old.items ++ spec.command_note self.now.style.now (item_line self.now.places.now item) word.now callee) }
    {
        push_number(notes, word, self.item_line(item) as u64)?;
        push_line(notes, b" ", self.style.name(callee))
    }

    /// Notes the command of an item, its line and its function.
    pub fn note_item(&self, notes: &mut Vec<u8>, item: usize) -> Result<(), AllocError>
        ensures { OnOk result (notes.new.items ≡ notes.old.items ++ spec.item_note self.now.style.now (item_line self.now.places.now item) (slice_get self.now.style.now.items item)) }
    {
        match self.style.items().get(item) {
            Some(Item::Execute(callee)) => {
                self.note_command(notes, b"item EXECUTE ", item, *callee)
            }
            Some(Item::Iterate(callee)) => {
                self.note_command(notes, b"item ITERATE ", item, *callee)
            }
            Some(Item::Reverse(callee)) => {
                self.note_command(notes, b"item REVERSE ", item, *callee)
            }
            _ => notes.extend_from_slice(b""),
        }
    }

    // Notes what comes next: the name of what is run, or nothing for a literal.
    fn note_next(&self, notes: &mut Vec<u8>, next: Token) -> Result<(), AllocError>
        ensures { OnOk result (notes.new.items ≡ notes.old.items ++ spec.next_note self.now.style.now next) }
    {
        match next {
            Token::Run(function) => push_line(notes, b"next ", self.style.name(function)),
            _ => notes.extend_from_slice(b""),
        }
    }

    // Notes the token where the run stands, if it is known.
    fn note_at(&self, notes: &mut Vec<u8>, at: Option<Place>) -> Result<(), AllocError>
        ensures { OnOk result (notes.new.items ≡ notes.old.items ++ spec.at_note self.now.style.now (token_line self.now.places.now) at) }
    {
        match at {
            Some(place) => self.note_place(notes, b"at", place),
            None => notes.extend_from_slice(b""),
        }
    }

    // Notes a literal, as a log shows it.
    #[tactic(auto, using(btx_text::proofs::JoinLemmas::joins), unfolding(crate::specs::Notes::literal_note))]
    fn note_literal(
        &self,
        alloc: Global,
        notes: &mut Vec<u8>,
        literal: Literal<'_>,
    ) -> Result<(), AllocError>
        ensures { OnOk result (notes.new.items ≡ notes.old.items ++ spec.literal_note self.now.style.now literal.entry) }
    {
        let line = line_of(alloc, self.style, &[], None, &Note::Shown(literal))?;
        push_number(notes, b"literal ", line.text().len() as u64)?;
        push_line(notes, b" ", line.text())
    }

    // Notes how many literals there are, and those on top.
    #[tactic(auto, using(btx_text::proofs::JoinLemmas::joins), unfolding(crate::specs::Notes::literals_note))]
    fn note_literals(
        &self,
        alloc: Global,
        notes: &mut Vec<u8>,
        depth: usize,
        literals: Vec<Literal<'_>>,
    ) -> Result<(), AllocError>
        ensures { OnOk result (notes.new.items ≡ notes.old.items ++ spec.literals_note self.now.style.now depth literals.entry.items) }
    {
        push_number(notes, b"depth ", depth as u64)?;
        notes.extend_from_slice(b"\n")?;
        self.note_each(alloc, notes, literals)
    }

    // Notes each of these literals.
    fn note_each(
        &self,
        alloc: Global,
        notes: &mut Vec<u8>,
        literals: Vec<Literal<'_>>,
    ) -> Result<(), AllocError>
        ensures { OnOk result (notes.new.items ≡ notes.old.items ++ flat_map (spec.literal_note self.now.style.now) literals.entry.items) }
    {
        for literal in literals {
            self.note_literal(alloc, notes, literal)?;
        }
        Ok(())
    }

    // Notes these callers.
    fn note_near(&self, notes: &mut Vec<u8>, callers: &[Place]) -> Result<(), AllocError>
        ensures { OnOk result (notes.new.items ≡ notes.old.items ++ flat_map (spec.place_note self.now.style.now (token_line self.now.places.now) (codes "from")) callers.now) }
    {
        for caller in callers {
            self.note_place(notes, b"from", *caller)?;
        }
        Ok(())
    }

    // Notes callers far away: how many they are but the outermost, and then the outermost.
    #[tactic(auto, using(btx_text::proofs::JoinLemmas::joins), unfolding(crate::specs::Notes::far_note))]
    fn note_far(&self, notes: &mut Vec<u8>, callers: &[Place]) -> Result<(), AllocError>
        ensures { OnOk result (notes.new.items ≡ notes.old.items ++ spec.far_note self.now.style.now (token_line self.now.places.now) callers.now) }
    {
        let Some(outermost) = callers.last() else {
            return notes.extend_from_slice(b"");
        };
        push_left_out(notes, callers.len() - 1)?;
        self.note_place(notes, b"from", *outermost)
    }

    // Notes who called, the innermost first.
    #[tactic(auto, using(btx_text::proofs::JoinLemmas::joins), unfolding(crate::specs::Notes::callers_note))]
    fn note_callers(&self, notes: &mut Vec<u8>, callers: &[Place]) -> Result<(), AllocError>
        ensures { OnOk result (notes.new.items ≡ notes.old.items ++ spec.callers_note self.now.style.now (token_line self.now.places.now) callers.now) }
    {
        let near = MOST_CALLERS.min(callers.len());
        self.note_near(notes, &callers[..near])?;
        self.note_far(notes, &callers[near..])
    }

    /// Notes a scene of a run of `job`: the current entry, what comes next, the token `at`, who called the function in which that stands, and the literals on top.
    #[tactic(auto, using(btx_text::proofs::JoinLemmas::joins), unfolding(crate::specs::Notes::scene_note))]
    pub fn note_scene(
        &self,
        alloc: Global,
        notes: &mut Vec<u8>,
        job: &Job<'_>,
        scene: StoppedState<'_>,
        at: Option<Place>,
    ) -> Result<(), AllocError>
        ensures { OnOk result (notes.new.items ≡ notes.old.items ++ spec.scene_note self.now.style.now job.now (token_line self.now.places.now) at scene.entry) }
    {
        note_entry(notes, job, scene.entry)?;
        self.note_next(notes, scene.next)?;
        self.note_at(notes, at)?;
        let places = places_of(alloc, scene.levels.as_slice())?;
        self.note_callers(notes, callers_of(at, places.as_slice()))?;
        self.note_literals(alloc, notes, scene.depth, scene.literals)
    }

    /// Notes a scene of a run of `job` that was found for an event of this word; nothing, if none was found. `began` is the token that began the loop, for its test.
    pub fn note_found(
        &self,
        alloc: Global,
        notes: &mut Vec<u8>,
        job: &Job<'_>,
        word: Word,
        began: Option<Place>,
        found: Option<StoppedState<'_>>,
    ) -> Result<(), AllocError>
        ensures { OnOk result (notes.new.items ≡ notes.old.items ++ spec.found_note self.now.style.now job.now (token_line self.now.places.now) word began found.entry) }
    {
        match found {
            Some(scene) => {
                let at = noted_at(word, began, scene.levels.as_slice());
                self.note_scene(alloc, notes, job, scene, at)
            }
            None => notes.extend_from_slice(b""),
        }
    }

    /// The token that began the loop whose test an event is; none for another event.
    pub fn began(&self, event: &Event) -> Option<Place> {
        match event.word {
            Word::Test => self.token_before(event.place),
            Word::Step | Word::Left | Word::Stop | Word::Limit => None,
        }
    }

    /// The tokens since which the literals have been there that a command left, or that pushed those that a step takes, the uppermost first; none for another event.
    pub fn tokens_since(
        &self,
        alloc: Global,
        event: &Event,
    ) -> Result<Vec<Option<Place>>, AllocError>
        ensures { IfOk result (λ tokens. length tokens.items ≡ length event.now.since.items) }
    {
        let mut tokens = Vec::new(alloc);
        for place in &event.since {
            tokens.push(self.token_before(*place))?;
        }
        Ok(tokens)
    }

    // Notes since which token a literal has been there, if that is known.
    fn note_one_since(&self, notes: &mut Vec<u8>, token: Option<Place>) -> Result<(), AllocError>
        ensures { OnOk result (notes.new.items ≡ notes.old.items ++ spec.since_note self.now.style.now (token_line self.now.places.now) token) }
    {
        match token {
            Some(place) => self.note_place(notes, b"since", place),
            None => notes.extend_from_slice(b"since\n"),
        }
    }

    /// Notes since which of these tokens each literal has been there.
    pub fn note_since(
        &self,
        notes: &mut Vec<u8>,
        tokens: &[Option<Place>],
    ) -> Result<(), AllocError>
        ensures { OnOk result (notes.new.items ≡ notes.old.items ++ flat_map (spec.since_note self.now.style.now (token_line self.now.places.now)) tokens.now) }
    {
        for token in tokens {
            self.note_one_since(notes, *token)?;
        }
        Ok(())
    }
}

// Notes how many callers are left out, if there are any.
#[tactic(auto, using(btx_text::proofs::JoinLemmas::joins))]
fn push_left_out(notes: &mut Vec<u8>, count: usize) -> Result<(), AllocError>
    ensures { OnOk result (notes.new.items ≡ notes.old.items ++ spec.left_out_note count) }
{
    if count == 0 {
        return notes.extend_from_slice(b"");
    }
    push_number(notes, b"more ", count as u64)?;
    notes.extend_from_slice(b"\n")
}

/// Where a scene stands: in the innermost body, at the token after which that goes on.
pub fn standing(levels: &[Level]) -> Option<Place>
    ensures { result ≡ slice_get (spec.places_of levels.now) 0 }
{
    for level in levels {
        if let Level::Body(place) = level {
            return Some(*place);
        }
    }
    None
}

// The token where a run stands, as it is noted for an event of this word: in the innermost body; for the test of a loop, the token that began it.
fn noted_at(word: Word, began: Option<Place>, levels: &[Level]) -> Option<Place>
    ensures { result ≡ spec.noted_at word began levels.now }
{
    match word {
        Word::Test => began,
        Word::Step | Word::Left | Word::Stop | Word::Limit => standing(levels),
    }
}

// The tokens at which bodies stand, the innermost first.
fn places_of(alloc: Global, levels: &[Level]) -> Result<Vec<Place>, AllocError>
    ensures { IfOk result (λ places. places.items ≡ spec.places_of levels.now) }
{
    let mut places = Vec::new(alloc);
    for level in levels {
        if let Level::Body(place) = level {
            places.push(*place)?;
        }
    }
    Ok(places)
}

// Whether two places are one.
fn is_same(a: Place, b: Place) -> bool
    ensures { result ≡ spec.is_same a b }
{
    a.function == b.function && a.token == b.token
}

// The places round one of them.
fn places_round(at: Place, places: &[Place]) -> &[Place]
    ensures { result.now ≡ spec.places_round at places.now }
{
    for index in 0..places.len() {
        if is_same(places[index], at) {
            return &places[index + 1..];
        }
    }
    &[]
}

// The tokens that called, the innermost first: those of the bodies round the one that stands at `at`; those of all, if there is no such token.
fn callers_of(at: Option<Place>, places: &[Place]) -> &[Place]
    ensures { result.now ≡ spec.callers_of at places.now }
{
    match at {
        Some(at) => places_round(at, places),
        None => places,
    }
}

// How notes say what an event is.
fn word_of(event: Word) -> &'static [u8]
    ensures { result.now ≡ spec.word_text event }
{
    match event {
        Word::Step => b"step",
        Word::Test => b"test",
        Word::Left => b"left",
        Word::Stop => b"stop",
        Word::Limit => b"limit",
    }
}

/// Notes an event: what logged, its step, and the numbers in the log of its first error and of the one after its last.
#[tactic(auto, using(btx_text::proofs::JoinLemmas::joins), unfolding(crate::specs::Notes::event_note))]
pub fn note_event(
    notes: &mut Vec<u8>,
    word: Word,
    steps: u64,
    errors: u64,
    behind: u64,
) -> Result<(), AllocError>
    ensures { OnOk result (notes.new.items ≡ notes.old.items ++ spec.event_note (spec.word_text word) steps errors behind) }
{
    push_two(notes, b"event ", word_of(word))?;
    push_number(notes, b" ", steps)?;
    push_number(notes, b" ", errors)?;
    push_number(notes, b" ", behind)?;
    notes.extend_from_slice(b"\n")
}

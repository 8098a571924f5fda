//! The literals, the variables and the current entry, and what functions do to them.
ghost use Rattle.std.specs.Prelude.{◌≡◌, ◌≤◌, ◌==◌, [], ◌∷◌, IfOk, IfSome, IfNone, length};
ghost use Rattle.btx_step.specs.language.Answers.{answer, pushes, pushed, pushed_text, complained, complains, truth, with_literals};
ghost use Rattle.btx_step.specs.refinement.Answers.{gives, outside, quiet_of};
ghost use Rattle.btx_text.specs.language.Limits.{greatest_string};
ghost use Rattle.btx_step.specs.laws.Applied.{FollowsRule};
ghost use Rattle.btx_step.specs.refinement.Operands.{Fit};
ghost use Rattle.btx_step.specs.refinement.Quick.{next_of_push};
ghost use Rattle.btx_step.specs.language.Steps.{built_in_run, function_run, step_of};
ghost use Rattle.btx_step.specs.refinement.Steps.{with_current, with_depth};
ghost use Rattle.btx_stack.specs.declared.literal.Literal.TheVariants as literal;
ghost use Rattle.btx_step.specs.declared.said.StepOutput.{StepOutput as Words};

mod apart;
mod arithmetic;
mod control;
mod entries;
mod names;
mod operands;
mod pairs;
mod quick;
mod stacks;
mod starts;
mod strings;
mod variables;

use crate::calculation::Calculation;
use crate::job::Job;
use crate::literal::Literal;
use crate::next::Next;
use crate::outcome::{Outcome, Stepped};
use crate::said::{Note, Notes, StepOutput};
use crate::stand_in::StandIn;
use crate::values::EntryValues;
use btx_bst::{BuiltIn, Callee, Token};
use btx_names::NameFormatter;
use btx_stack::{Literals, Variable};
use btx_text::{GREATEST_STRING, Limit};
use std::alloc::{AllocError, Global};
use std::marker::Model;

/// The literals, the variables, the current entry if there is one, and the greatest number of bodies that were open at once.
#[derive(Drop)]
pub struct Store<'a> {
    alloc: Global,
    literals: Literals<'a>,
    integers: Vec<i32>,
    strings: Vec<Variable<'a>>,
    entries: EntryValues<'a>,
    current: Option<usize>,
    deepest: usize,
    // What is kept of names and formats from call to call. It is no part of what the store means.
    names: NameFormatter,
    // Room for a string while it is made. It is no part of what the store means.
    room: Vec<u8>,
}

impl<'a> Model for Store<'a> {
    ghost use Rattle.btx_step.specs.language.Stores.{Store as Stored};

    ghost Value = { Stored };

    ghost view = { λ store. record {
      literals = store.literals;
      integers = store.integers.items;
      strings = store.strings.items;
      entries = store.entries;
      current = store.current;
      deepest = store.deepest;
    } };
}

impl<'a> Store<'a> {
    /// Executes a token, and answers what follows and what it says.
    #[tactic(auto, unfolding(crate::specs::language::Steps::step_of))]
    pub fn step(&mut self, job: &Job<'a>, token: Token) -> Stepped<'a>
        ensures { IfOk result (λ o. gives o self.new ≡ step_of job.now token self.old) }
    {
        match token {
            Token::Text(number) => Ok(self.push_text(job.style().text(number))),
            Token::Integer(n) => Ok(self.push_number(n)),
            Token::Quote(function) => self.push(Literal::Function(function)),
            Token::Run(function) => self.run(job, function),
        }
    }

    /// Executes a function, a field or a variable, and answers what follows and what it says.
    #[tactic(auto, unfolding(crate::specs::language::Steps::function_run))]
    pub fn run(&mut self, job: &Job<'a>, function: Callee) -> Stepped<'a>
        ensures { IfOk result (λ o. gives o self.new ≡ function_run job.now function self.old) }
    {
        match function {
            Callee::BuiltIn(function) => self.run_built_in(job, function),
            Callee::User(number) => Ok(Outcome::quiet(Next::Open(number))),
            Callee::Field(number) => self.push_field(job, number),
            Callee::EntryInteger(number) => self.push_entry_integer(number),
            Callee::EntryString(number) => self.push_entry_string(number),
            Callee::GlobalInteger(number) => Ok(self.push_integer(number)),
            Callee::GlobalString(number) => self.push_string(number),
        }
    }

    // A function gets its operands, or its default follows. `missing$` without an entry is the one exception.
    #[tactic(auto, using(crate::proofs::OperandLemmas::reported, crate::proofs::OperandLemmas::rule_followed, crate::proofs::OperandLemmas::rule_broken))]
    fn run_built_in(&mut self, job: &Job<'a>, function: BuiltIn) -> Stepped<'a>
        ensures { IfOk result (λ o. gives o self.new ≡ built_in_run job.now function self.old) }
    {
        if function == BuiltIn::Missing && self.current.is_none() {
            return self.miss_entry_for_missing();
        }
        match self.check_operands(function)? {
            Some(outcome) => Ok(outcome),
            None => self.apply(job, function),
        }
    }

    // What a function does on operands that are there and fit.
    #[tactic(auto, unfolding(crate::specs::language::Steps::built_in_run))]
    fn apply(&mut self, job: &Job<'a>, function: BuiltIn) -> Stepped<'a>
        requires fit { Fit function self.old }
        requires rule { FollowsRule function self.old.current }
        ensures { IfOk result (λ o. gives o self.new ≡ built_in_run job.now function self.old) }
    {
        match function {
            BuiltIn::Equals => self.equal(),
            BuiltIn::Greater => self.calculate(Calculation::Greater),
            BuiltIn::Less => self.calculate(Calculation::Less),
            BuiltIn::Plus => self.calculate(Calculation::Plus),
            BuiltIn::Minus => self.calculate(Calculation::Minus),
            BuiltIn::Concatenate => self.join(),
            BuiltIn::Assign => self.assign(job),
            BuiltIn::AddPeriod => self.end_sentence(),
            BuiltIn::CallType => self.call_type(job),
            BuiltIn::ChangeCase => self.change_case(),
            BuiltIn::ChrToInt => self.push_code(),
            BuiltIn::Cite => self.cite(job),
            BuiltIn::Duplicate => self.duplicate(),
            BuiltIn::Empty => self.find_empty(),
            BuiltIn::FormatName => self.format_name(job),
            BuiltIn::If => self.choose(),
            BuiltIn::IntToChr => self.push_character(),
            BuiltIn::IntToStr => self.push_decimal(),
            BuiltIn::Missing => self.find_missing(),
            BuiltIn::NewLine => Ok(Outcome::saying(Next::Nothing, StepOutput::EndedLine)),
            BuiltIn::NumNames => self.count_names(),
            BuiltIn::Pop => self.drop_top(),
            BuiltIn::Preamble => Ok(self.push_preamble(job)),
            BuiltIn::Purify => self.purify(),
            BuiltIn::Quote => Ok(self.push_quote()),
            BuiltIn::Skip => Ok(Outcome::quiet(Next::Nothing)),
            BuiltIn::Stack => self.show_stack(),
            BuiltIn::Substring => self.substring(),
            BuiltIn::Swap => self.swap(),
            BuiltIn::TextLength => self.measure_text(job),
            BuiltIn::TextPrefix => self.prefix(job),
            BuiltIn::Top => self.show_top(),
            BuiltIn::Type => self.push_type(job),
            BuiltIn::Warning => self.warn(),
            BuiltIn::While => self.start_loop(),
            BuiltIn::Width => self.measure_width(),
            BuiltIn::Write => self.write(),
        }
    }

    /// Answers the number of the current entry, if there is one.
    pub fn current(&self) -> Option<usize>
        ensures { result ≡ self.now.current }
    {
        self.current
    }

    /// Makes an entry the current one, or none.
    pub fn set_current(&mut self, entry: Option<usize>)
        ensures { self.new ≡ with_current entry self.old }
    {
        self.current = entry;
    }

    /// Answers the greatest number of bodies that were open at once.
    pub fn deepest(&self) -> usize
        ensures { result ≡ self.now.deepest }
    {
        self.deepest
    }

    /// Notes that `bodies` bodies are open, for the greatest number.
    pub fn open(&mut self, bodies: usize)
        ensures { self.new ≡ with_depth bodies self.old }
    {
        if bodies > self.deepest {
            self.deepest = bodies;
        }
    }

    /// Answers how many literals are on the stack.
    pub fn depth(&self) -> usize
        ensures length { result ≡ length self.now.literals }
        ensures within { length self.now.literals ≤ 1000 }
    {
        self.literals.len()
    }

    /// Answers whether the stack is empty.
    pub fn is_empty(&self) -> bool
        ensures { result ≡ (length self.now.literals == 0) }
    {
        self.literals.len() == 0
    }

    /// Pops the top literal, if there is one.
    pub fn pop(&mut self) -> Result<Option<Literal<'a>>, AllocError>
        ensures some { IfOk result (λ top. IfSome top (λ value. self.old.literals ≡ value ∷ self.new.literals)) }
        ensures none { IfOk result (λ top. IfNone top (self.old.literals ≡ [])) }
        ensures below { IfOk result (λ top. IfNone top (self.new.literals ≡ [])) }
        ensures rest { with_literals [] self.new ≡ with_literals [] self.old }
    {
        self.literals.pop(self.alloc)
    }

    // One more literal, if there is room.
    #[tactic(auto, using(crate::proofs::QuickLemmas::push_answer))]
    fn push(&mut self, value: Literal<'a>) -> Stepped<'a>
        ensures quiet { IfOk result (λ o. gives o self.new ≡ pushed value.entry self.old) }
        ensures aloud { IfOk result (λ o. (saying : Words) → answer o.next saying self.new ≡ pushes saying value.entry self.old) }
    {
        Ok(pushed_if(self.literals.push(value)?))
    }

    // One more integer, if there is room.
    #[tactic(auto, using(crate::proofs::QuickLemmas::push_answer))]
    fn push_number(&mut self, n: i32) -> Outcome<'a>
        ensures quiet { gives result self.new ≡ pushed (literal.Integer n) self.old }
        ensures aloud { (saying : Words) → answer result.next saying self.new ≡ pushes saying (literal.Integer n) self.old }
    {
        pushed_if(self.literals.push_integer(n))
    }

    // One more string that isn't copied, if there is room.
    #[tactic(auto, using(crate::proofs::QuickLemmas::push_answer))]
    fn push_lent(&mut self, text: &'a [u8]) -> Outcome<'a>
        requires { length text.now ≤ greatest_string }
        ensures quiet { gives result self.new ≡ pushed (literal.Text text.now) self.old }
        ensures aloud { (saying : Words) → answer result.next saying self.new ≡ pushes saying (literal.Text text.now) self.old }
    {
        pushed_if(self.literals.push_lent(text))
    }

    // One more value of a missing field, if there is room.
    #[tactic(auto, using(crate::proofs::QuickLemmas::push_answer))]
    fn push_missing(&mut self) -> Outcome<'a>
        ensures { gives result self.new ≡ pushed literal.Missing self.old }
    {
        pushed_if(self.literals.push_missing())
    }

    // One more string, if it isn't too long.
    fn push_text(&mut self, text: &'a [u8]) -> Outcome<'a>
        ensures { gives result self.new ≡ pushed_text text.now self.old }
    {
        if text.len() > GREATEST_STRING {
            return Outcome::quiet(Next::End(Limit::String));
        }
        self.push_lent(text)
    }

    // The truth as an integer.
    fn push_truth(&mut self, is_true: bool) -> Outcome<'a>
        ensures { gives result self.new ≡ pushed (truth is_true) self.old }
    {
        self.push_number(if is_true { 1 } else { 0 })
    }

    // Lines of the log, and what stands in for a result.
    fn complain_all(&mut self, notes: Notes<'a>, instead: StandIn) -> Outcome<'a>
        ensures { gives result self.new ≡ complained notes.entry instead self.old }
    {
        let next = match instead {
            StandIn::Nothing => Next::Nothing,
            StandIn::Zero => self.push_number(0).next,
            StandIn::Empty => self.push_lent(&[]).next,
        };
        Outcome::saying(next, StepOutput::Noted(notes))
    }

    // A line of the log, and what stands in for a result.
    #[cold]
    fn complain(&mut self, note: Note<'a>, instead: StandIn) -> Stepped<'a>
        ensures { IfOk result (λ o. gives o self.new ≡ complains note.entry instead self.old) }
    {
        let notes = Notes::one(self.alloc, note)?;
        Ok(self.complain_all(notes, instead))
    }

    // There is no current entry.
    fn miss_entry(&mut self) -> Stepped<'a>
        ensures { IfOk result (λ o. gives o self.new ≡ outside self.old) }
    {
        self.complain(Note::NoEntry, StandIn::Nothing)
    }
}

// What follows a push: nothing where it was done, and the end of the run where there was no room.
fn pushed_if<'a>(done: bool) -> Outcome<'a>
    ensures { result ≡ quiet_of (next_of_push done) }
{
    Outcome::quiet(if done {
        Next::Nothing
    } else {
        Next::End(Limit::Literals)
    })
}

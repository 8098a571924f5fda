//! A style as far as it has been read, command by command.
ghost use Rattle.std.specs.Prelude.{◌≡◌, IfOk, OnOk, None};
ghost use Rattle.btx_bst.specs.language.Commands.{command_at, entry_command, run_command, sort_command, declare, macro_command, function_command};
ghost use Rattle.btx_bst.specs.language.Commands.{function_ended, function_in, read_command, inside_at};
ghost use Rattle.btx_bst.specs.language.BodyText.{body_end};
ghost use Rattle.btx_bst.specs.refinement.Views.{item_view, run_item};
ghost use Rattle.btx_bst.specs.language.Places.{Place};
ghost use Rattle.btx_bst.specs.language.Names.{named_lower};
ghost use Rattle.btx_bst.specs.refinement.DraftViews.{draft_view, outcome_view};
ghost use Rattle.btx_bst.specs.refinement.Weights.{HasRoom};
ghost use Rattle.btx_bst.specs.laws.StyleText.{unread_style};
ghost use Rattle.btx_bst.specs.laws.Recorded.{Records, command_recorded, function_command_recorded, function_recorded};

use crate::bodies::Bodies;
use crate::body_words::{body, find};
use crate::callee::{Callee, Kind};
use crate::command::Command;
use crate::complaint::Complaint;
use crate::cursor::Cursor;
use crate::item::Item;
use crate::lists::list;
use crate::macros::Macros;
use crate::names::Names;
use crate::open::Open;
use crate::recorder::Recording;
use crate::token::Token;
use btx_text::Lowered;
use std::alloc::{AllocError, Global};

// What was taken of a command. Where something is wrong instead, the function that calls this is left with it.
macro_rules! taken {
    ($read:expr) => {
        match $read {
            Ok(value) => value,
            Err(complaint) => return Ok(Some(complaint)),
        }
    };
}

// Takes a part of a command whole. Where something is wrong in it, the function that calls this is left with that.
macro_rules! whole {
    ($part:expr) => {
        if let Some(complaint) = $part? {
            return Ok(Some(complaint));
        }
    };
}

// What is wrong in the rest of a command that was taken, if anything is.
type Taken<'a> = Result<Option<Complaint<'a>>, AllocError>;

/// A style as far as it has been read.
#[derive(Drop)]
pub struct StyleBuilder<'a> {
    /// The name of the file.
    pub file_name: &'a [u8],
    /// The names, with what they name.
    pub names: Names<'a>,
    /// The macros.
    pub macros: Macros<'a>,
    /// The bodies of the functions.
    pub bodies: Bodies<Token>,
    /// The strings that stand in bodies.
    pub texts: Vec<&'a [u8]>,
    /// The items.
    pub items: Vec<Item<'a>>,
    /// Whether an ENTRY took effect.
    pub has_entry: bool,
    /// If a READ took effect, how many functions stood before it.
    pub before_read: Option<usize>,
}

impl<'a> StyleBuilder<'a> {
    /// Nothing has been read of the file of this name, and these names are known.
    pub fn new(alloc: Global, file_name: &'a [u8], names: Names<'a>) -> Self
        ensures { draft_view result ≡ unread_style file_name.now names.entry }
    {
        StyleBuilder {
            file_name,
            names,
            macros: Macros::new(alloc),
            bodies: Bodies::new(alloc),
            texts: Vec::new(alloc),
            items: Vec::new(alloc),
            has_entry: false,
            before_read: None,
        }
    }

    /// Takes the rest of a command, and records where the tokens of its body stand.
    pub fn command<R: Recording>(
        &mut self,
        alloc: Global,
        cursor: &mut Cursor<'a>,
        command: Command,
        recorder: &mut R,
    ) -> Taken<'a>
        requires { HasRoom (draft_view self.old) cursor.old }
        ensures outcome { IfOk result (λ complaint. outcome_view complaint (draft_view self.new) cursor.new ≡ command_at command (draft_view self.old) cursor.old) }
        ensures recorded { OnOk result (Records (command_recorded command (draft_view self.old) cursor.old) (R.recorded recorder.old) (R.recorded recorder.new)) }
    {
        match command {
            Command::Entry => self.entry(alloc, cursor),
            Command::Function => self.function(alloc, cursor, recorder),
            Command::Read => self.read(),
            Command::Execute => self.run(alloc, cursor, command),
            Command::Iterate => self.run(alloc, cursor, command),
            Command::Reverse => self.run(alloc, cursor, command),
            Command::Sort => self.sort(),
            Command::Integers => self.declare(alloc, cursor, Kind::GlobalInteger, Item::Integers),
            Command::Strings => self.declare(alloc, cursor, Kind::GlobalString, Item::Strings),
            Command::Macro => self.take_macro(alloc, cursor),
        }
    }

    // Takes the rest of an ENTRY.
    #[tactic(auto, unfolding(crate::specs::language::Commands::entry_command))]
    fn entry(&mut self, alloc: Global, cursor: &mut Cursor<'a>) -> Taken<'a>
        requires { HasRoom (draft_view self.old) cursor.old }
        ensures { IfOk result (λ complaint. outcome_view complaint (draft_view self.new) cursor.new ≡ entry_command (draft_view self.old) cursor.old) }
    {
        if self.has_entry {
            return Ok(Some(Complaint::Another(Command::Entry)));
        }
        whole!(list(alloc, cursor, &mut self.names, Kind::Field));
        whole!(list(alloc, cursor, &mut self.names, Kind::EntryInteger));
        whole!(list(alloc, cursor, &mut self.names, Kind::EntryString));
        self.items.push(Item::Entry)?;
        self.has_entry = true;
        Ok(None)
    }

    // Takes a READ.
    #[tactic(auto, unfolding(crate::specs::language::Commands::read_command))]
    fn read(&mut self) -> Taken<'a>
        ensures { IfOk result (λ complaint. (place : Place) → outcome_view complaint (draft_view self.new) place ≡ read_command (draft_view self.old) place) }
    {
        if self.before_read.is_some() {
            return Ok(Some(Complaint::Another(Command::Read)));
        }
        if !self.has_entry {
            return Ok(Some(Complaint::BeforeEntry));
        }
        self.items.push(Item::Read)?;
        self.before_read = Some(self.bodies.len());
        Ok(None)
    }

    // Takes the rest of an EXECUTE, ITERATE or REVERSE.
    #[tactic(auto, unfolding(crate::specs::language::Commands::run_command))]
    fn run(&mut self, alloc: Global, cursor: &mut Cursor<'a>, command: Command) -> Taken<'a>
        ensures { IfOk result (λ complaint. outcome_view complaint (draft_view self.new) cursor.new
            ≡ run_command command (run_item command) (draft_view self.old) cursor.old) }
    {
        if self.before_read.is_none() {
            return Ok(Some(Complaint::BeforeRead(command)));
        }
        taken!(cursor.opening());
        let name = taken!(cursor.name());
        let Some(callee) = function_in(find(alloc, &self.names, name)?) else {
            return Ok(Some(Complaint::Unknown(name)));
        };
        taken!(cursor.closing());
        self.items.push(run_item(command, callee))?;
        Ok(None)
    }

    // Takes a SORT.
    #[tactic(auto, unfolding(crate::specs::language::Commands::sort_command))]
    fn sort(&mut self) -> Taken<'a>
        ensures { IfOk result (λ complaint. (place : Place) → outcome_view complaint (draft_view self.new) place ≡ sort_command (draft_view self.old) place) }
    {
        if self.before_read.is_none() {
            return Ok(Some(Complaint::BeforeRead(Command::Sort)));
        }
        self.items.push(Item::Sort)?;
        Ok(None)
    }

    // Takes the rest of an INTEGERS or a STRINGS, which declares variables of a kind.
    #[tactic(auto, unfolding(crate::specs::language::Commands::declare))]
    fn declare(
        &mut self,
        alloc: Global,
        cursor: &mut Cursor<'a>,
        kind: Kind,
        item: Item<'a>,
    ) -> Taken<'a>
        requires { HasRoom (draft_view self.old) cursor.old }
        ensures { IfOk result (λ complaint. outcome_view complaint (draft_view self.new) cursor.new
            ≡ declare kind (item_view item.entry) (draft_view self.old) cursor.old) }
    {
        whole!(list(alloc, cursor, &mut self.names, kind));
        self.items.push(item)?;
        Ok(None)
    }

    // Takes the rest of a MACRO.
    #[tactic(auto, unfolding(crate::specs::language::Commands::macro_command))]
    fn take_macro(&mut self, alloc: Global, cursor: &mut Cursor<'a>) -> Taken<'a>
        ensures { IfOk result (λ complaint. outcome_view complaint (draft_view self.new) cursor.new ≡ macro_command (draft_view self.old) cursor.old) }
    {
        if self.before_read.is_some() {
            return Ok(Some(Complaint::AfterRead));
        }
        taken!(cursor.opening());
        let name = taken!(cursor.name());
        let lowered = Lowered::of(alloc, name)?;
        if self.macros.text(lowered.as_bytes()).is_some() {
            return Ok(Some(Complaint::Defined(name)));
        }
        taken!(cursor.closing());
        taken!(cursor.opening());
        let text = taken!(cursor.quoted());
        taken!(cursor.closing());
        self.macros.add(alloc, &lowered, text)?;
        self.items.push(Item::Macro)?;
        Ok(None)
    }

    // Takes the rest of a FUNCTION.
    #[tactic(auto, unfolding(crate::specs::language::Commands::function_command, crate::specs::laws::Recorded::function_command_recorded))]
    fn function<R: Recording>(
        &mut self,
        alloc: Global,
        cursor: &mut Cursor<'a>,
        recorder: &mut R,
    ) -> Taken<'a>
        requires { HasRoom (draft_view self.old) cursor.old }
        ensures outcome { IfOk result (λ complaint. outcome_view complaint (draft_view self.new) cursor.new ≡ function_command (draft_view self.old) cursor.old) }
        ensures recorded { OnOk result (Records (function_command_recorded (draft_view self.old) cursor.old) (R.recorded recorder.old) (R.recorded recorder.new)) }
    {
        taken!(cursor.opening());
        let name = taken!(cursor.name());
        let lowered = Lowered::of(alloc, name)?;
        if self.names.find(lowered.as_bytes()).is_some() {
            return Ok(Some(Complaint::Defined(name)));
        }
        taken!(cursor.closing());
        taken!(cursor.opening());
        self.define(alloc, cursor, lowered, recorder)
    }

    // Takes a body, and defines its function.
    fn define<R: Recording>(
        &mut self,
        alloc: Global,
        cursor: &mut Cursor<'a>,
        lowered: Lowered<'a>,
        recorder: &mut R,
    ) -> Taken<'a>
        requires new { named_lower (draft_view self.old).names lowered ≡ None }
        requires room { HasRoom (draft_view self.old) cursor.old }
        ensures outcome { IfOk result (λ complaint. outcome_view complaint (draft_view self.new) cursor.new
            ≡ function_ended (draft_view self.old) lowered.entry (body_end (draft_view self.old).names (inside_at (draft_view self.old) cursor.old))) }
        ensures recorded { OnOk result (Records (function_recorded (draft_view self.old).names (inside_at (draft_view self.old) cursor.old)) (R.recorded recorder.old) (R.recorded recorder.new)) }
    {
        let count = self.bodies.len();
        let texts = self.texts.len();
        let mut current = Open::new(alloc);
        if let Some(complaint) = body(
            alloc,
            cursor,
            &self.names,
            &mut current,
            &mut self.bodies,
            &mut self.texts,
            &mut self.items,
            recorder,
        )? {
            self.bodies.cut(count);
            self.texts.truncate(texts);
            return Ok(Some(complaint));
        }
        let number = self.bodies.len();
        self.bodies.add(current.tokens())?;
        self.items.push(Item::Function(number as u32))?;
        self.names.add_function(alloc, number as u32, lowered)?;
        Ok(None)
    }
}

// The item of a command that executes a function.
fn run_item<'a>(command: Command, callee: Callee) -> Item<'a>
    ensures { item_view result ≡ run_item command callee }
{
    match command {
        Command::Iterate => Item::Iterate(callee),
        Command::Reverse => Item::Reverse(callee),
        _ => Item::Execute(callee),
    }
}

// What is a function.
fn function_in(callee: Option<Callee>) -> Option<Callee>
    ensures { result ≡ function_in callee }
{
    match callee {
        Some(Callee::User(number)) => Some(Callee::User(number)),
        Some(Callee::BuiltIn(built_in)) => Some(Callee::BuiltIn(built_in)),
        _ => None,
    }
}

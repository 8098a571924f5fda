//! The reading of databases.
use crate::draft::ListBuilder;
use crate::end::End;
use crate::gathering::{Gathering, fitting};
use crate::grammar::line_counter::LineCounter;
use crate::grammar::value_texts::squeezed_text;
use crate::library::Library;
use crate::message::Messages;
use crate::reading::Reading;
use crate::request::Request;
use crate::site::LineSource;
use crate::spelling::Word;
use crate::strings::StringTable;
use btx_aux::AuxJob;
use btx_bst::{Macros, Style};
use btx_text::{Fault, GREATEST_FILE, Text};
use std::alloc::{AllocError, Global};

// A database: the name of its file, and its bytes.
type Pair<'a> = (&'a [u8], &'a [u8]);

impl<'a> Gathering<'a> {
    ghost use Rattle.std.specs.Prelude.{◌≡◌, ◌++◌, true, IfOk, OnOk};
    ghost use Rattle.btx_bib.specs.declared.end.End.TheVariants as end;
    ghost use Rattle.btx_bib.specs.declared.grammar.commands.Expected.TheVariants as next;
    ghost use Rattle.btx_bib.specs.refinement.Gatherings.{closed, events_with, kept_along, kept_messages};
    ghost use Rattle.btx_bib.specs.language.Known.{goes_on};
    ghost use Rattle.btx_bib.specs.refinement.Readings.{IsListed, kept_macro, kept_macros, nothing_gathered, library_kept, listed_draft, kept_by_all, kept_one};
    ghost use Rattle.btx_bib.specs.refinement.Readings.{messages_of_all, messages_of_one};
    ghost use Rattle.btx_bib.specs.refinement.Requests.{wanted};
    ghost use Rattle.btx_bib.specs.refinement.Pairs.{database_of_pair, databases_of_pairs};

    // A database that isn't too long.
    fn read_short(
        &mut self,
        alloc: Global,
        request: &Request<'_, 'a>,
        database: &Pair<'a>,
        messages: &mut Messages<'a>,
    ) -> Result<(), AllocError>
        requires { goes_on self.old.ending ≡ true }
        ensures state { OnOk result (self.new ≡ closed (wanted request.now)
            (kept_along (wanted request.now) self.old (events_with (wanted request.now) self.old next.Item database.now.1.now))) }
        ensures logged { OnOk result (messages.new ≡ messages.old ++ kept_messages (wanted request.now) (database_of_pair database.now) self.old
            (events_with (wanted request.now) self.old next.Item database.now.1.now)) }
    {
        let (name, text) = *database;
        let site = LineSource {
            file: Word::new(name),
            lines: LineCounter::of(text),
        };
        let mut reading = Reading {
            alloc,
            request,
            site,
            messages: std::mem::replace(messages, Messages::new(alloc)),
        };
        self.read_events(text, &mut reading)?;
        let Reading { messages: read, .. } = reading;
        let _before = std::mem::replace(messages, read);
        self.close(alloc, request)
    }

    // A database. One that is too long ends the reading.
    fn read_one(
        &mut self,
        alloc: Global,
        request: &Request<'_, 'a>,
        database: &Pair<'a>,
        messages: &mut Messages<'a>,
    ) -> Result<(), AllocError>
        ensures state { OnOk result (self.new ≡ kept_one (wanted request.now) self.old (database_of_pair database.now)) }
        ensures logged { OnOk result (messages.new ≡ messages.old ++ messages_of_one (wanted request.now) self.old (database_of_pair database.now)) }
    {
        if self.has_ended() {
            return Ok(());
        }
        if database.1.len() > GREATEST_FILE {
            self.ending = End::FileLimit;
            return Ok(());
        }
        self.read_short(alloc, request, database, messages)
    }

    // All databases, one after the other.
    fn read_all(
        &mut self,
        alloc: Global,
        request: &Request<'_, 'a>,
        databases: &[Pair<'a>],
        messages: &mut Messages<'a>,
    ) -> Result<(), AllocError>
        ensures state { OnOk result (self.new ≡ kept_by_all (wanted request.now) self.old (databases_of_pairs databases.now)) }
        ensures logged { OnOk result (messages.new ≡ messages.old ++ messages_of_all (wanted request.now) self.old (databases_of_pairs databases.now)) }
    {
        for database in databases {
            self.read_one(alloc, request, database, messages)?;
        }
        Ok(())
    }

    // What is kept before the first database: the macros of the style.
    fn of_macros(
        alloc: Global,
        request: &Request<'_, 'a>,
        macros: &Macros<'a>,
    ) -> Result<Gathering<'a>, AllocError>
        ensures { IfOk result (λ kept. kept ≡ kept_macros (nothing_gathered (wanted request.now)) macros.now) }
    {
        let mut gathering = Gathering {
            draft: ListBuilder::of_cited(alloc, request)?,
            strings: StringTable::new(alloc),
            current: None,
            preamble: Text::empty(),
            ending: End::Whole,
        };
        gathering.define_macros(alloc, macros)?;
        Ok(gathering)
    }

    // A macro of the style.
    fn define_macro(&mut self, alloc: Global, name: &[u8], text: &'a [u8]) -> Result<(), AllocError>
        ensures { OnOk result (self.new ≡ kept_macro self.old (name.now, text.entry.now)) }
    {
        if self.has_ended() {
            return Ok(());
        }
        let text = fitting!(self, squeezed_text(alloc, text));
        let text = text.share()?;
        self.strings.define(alloc, name, text)
    }

    // The macros of the style.
    fn define_macros(&mut self, alloc: Global, macros: &Macros<'a>) -> Result<(), AllocError>
        ensures { OnOk result (self.new ≡ kept_macros self.old macros.now) }
    {
        for index in 0..macros.len() {
            if let Some((name, text)) = macros.get(index) {
                self.define_macro(alloc, name, text)?;
            }
        }
        Ok(())
    }

    // The library of what is kept and reported, where all databases were read.
    fn whole_library(
        self,
        alloc: Global,
        request: &Request<'_, 'a>,
        messages: Messages<'a>,
    ) -> Result<Library<'a>, AllocError>
        requires { IsListed (listed_draft (wanted request.now) self.draft) }
        ensures { IfOk result (λ library. library ≡ library_kept end.Whole (wanted request.now) self.entry messages.entry) }
    {
        let Gathering {
            draft,
            strings: _,
            current: _,
            preamble,
            ending: _,
        } = self;
        draft.into_library(alloc, request, preamble, messages)
    }

    /// The library of what is kept and reported.
    pub fn library(
        self,
        alloc: Global,
        request: &Request<'_, 'a>,
        messages: Messages<'a>,
    ) -> Result<Library<'a>, AllocError>
        requires { IsListed (listed_draft (wanted request.now) self.draft) }
        ensures { IfOk result (λ library. library ≡ library_kept self.entry.ending (wanted request.now) self.entry messages.entry) }
    {
        let ending = self.ending;
        match ending {
            End::Whole => self.whole_library(alloc, request, messages),
            End::FileLimit | End::StringLimit => Ok(Library {
                entries: Vec::new(alloc),
                preamble: Text::empty(),
                messages,
                ending,
            }),
        }
    }
}

ghost use Rattle.std.specs.Prelude.{◌≡◌, IfErr, IfOk};
ghost use Rattle.btx_text.specs.declared.fault.Fault.TheVariants.{Memory};
ghost use Rattle.btx_bib.specs.language.Databases.{library_of};
ghost use Rattle.btx_bib.specs.language.Requests.{asked};
ghost use Rattle.btx_bib.specs.refinement.Requests.{wanted};
ghost use Rattle.btx_bib.specs.refinement.Pairs.{databases_of_pairs};

/// Reads the databases of a job, given as pairs of name and bytes: what they give to it and its style, where an entry that isn't cited stays if at least
/// `min_crossrefs` others refer to it. The library borrows the bytes of the files and of the cited keys; the style and the list of pairs are used in the
/// call alone. The only fault is want of memory.
pub fn read_databases<'a>(
    alloc: Global,
    style: &Style<'a>,
    job: &'a AuxJob,
    databases: &[(&'a [u8], &'a [u8])],
    min_crossrefs: u32,
) -> Result<Library<'a>, Fault>
    ensures library { IfOk result (λ library. library ≡ library_of (asked style.now job.now min_crossrefs) style.now.macros (databases_of_pairs databases.now)) }
    ensures fault { IfErr result (λ fault. fault ≡ Memory) }
{
    Ok(library_read(alloc, style, job, databases, min_crossrefs)?)
}

// The library of a job.
fn library_read<'a>(
    alloc: Global,
    style: &Style<'a>,
    job: &'a AuxJob,
    databases: &[Pair<'a>],
    min_crossrefs: u32,
) -> Result<Library<'a>, AllocError>
    ensures { IfOk result (λ library. library ≡ library_of (asked style.now job.now min_crossrefs) style.now.macros (databases_of_pairs databases.now)) }
{
    let request = Request::of(alloc, style, job, min_crossrefs)?;
    library_requested(alloc, &request, style.macros(), databases)
}

// The library that a request asks for.
fn library_requested<'a>(
    alloc: Global,
    request: &Request<'_, 'a>,
    macros: &Macros<'a>,
    databases: &[Pair<'a>],
) -> Result<Library<'a>, AllocError>
    ensures { IfOk result (λ library. library ≡ library_of (wanted request.now) macros.now (databases_of_pairs databases.now)) }
{
    let mut gathering = Gathering::of_macros(alloc, request, macros)?;
    let mut messages = Messages::new(alloc);
    gathering.read_all(alloc, request, databases, &mut messages)?;
    gathering.library(alloc, request, messages)
}

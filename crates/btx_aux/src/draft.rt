//! What is known so far of the `.aux` files, event by event.
use crate::command::{Command, Slip};
use crate::end::End;
use crate::keys::{Keys, lowered};
use crate::line_words::command_line;
use crate::name::{Name, has_ending, with_ending};
use crate::name_set::NameSet;
use crate::notes::{Complaint, Note, log_line};
use crate::pieces::{Pieces, only_piece};
use btx_text::{LogLines, Place};
use std::alloc::{AllocError, Global};

const STAR: &[u8] = b"*";

const AUX: &[u8] = b".aux";

const BIB: &[u8] = b".bib";

const BST: &[u8] = b".bst";

/// What is known so far.
#[derive(Drop)]
pub struct AuxJobBuilder {
    /// The keys that are listed.
    pub keys: Keys,
    /// The number of keys that were listed before the first `*`.
    pub all: Option<usize>,
    /// The databases of the first `\bibdata` line.
    pub databases: NameSet,
    /// Whether there was a `\bibdata` line.
    pub has_bibdata: bool,
    /// The style of the first `\bibstyle` line.
    pub style: Option<Name>,
    /// Whether there was a `\bibstyle` line.
    pub has_bibstyle: bool,
    /// The files that were named, found or not.
    pub files: NameSet,
    /// The log so far.
    pub log: LogLines,
    /// How the reading ends, as far as is known.
    pub ending: End,
}

impl AuxJobBuilder {
    ghost use Rattle.std.specs.Prelude.{◌≡◌, [], ◌∷◌, ◌++◌, OnOk, IfOk, option_copied, map, true, false, not};
    ghost use Rattle.btx_aux.specs.refinement.Drafts.{blank, learned, learned_words, asked_in, with_databases, with_database};
    ghost use Rattle.btx_aux.specs.language.Events.{event_at, asked_of};
    ghost use Rattle.btx_aux.specs.refinement.Grammar.{piece_of};
    ghost use Rattle.btx_aux.specs.language.Grammar.{Absent, Cites, Databases, Includes, Opens, Styles, Taken, is_whole, pieces_of, words_of};
    ghost use Rattle.btx_aux.specs.refinement.Notes.{aux_note_line};
    ghost use Rattle.btx_aux.specs.language.Notes.{Wrong};
    ghost use Rattle.btx_aux.specs.refinement.Views.{complaint_view, note_view};
    ghost use Rattle.btx_aux.specs.refinement.Pieces.{piece_from};
    ghost use Rattle.btx_aux.specs.language.Job.{is_star, taken_with, database_complaints};

    /// Nothing is known.
    pub fn new(alloc: Global) -> Self
        ensures { result ≡ blank }
    {
        AuxJobBuilder {
            keys: Keys::new(alloc),
            all: None,
            databases: NameSet::new(alloc),
            has_bibdata: false,
            style: None,
            has_bibstyle: false,
            files: NameSet::new(alloc),
            log: LogLines::new(alloc),
            ending: End::Whole,
        }
    }

    /// Adds a line to the log.
    pub fn log_note(&mut self, alloc: Global, note: Note<'_>) -> Result<(), AllocError>
        ensures { OnOk result (self.new ≡ record self.old { log = self.old.log ++ aux_note_line (note_view note.entry) ∷ [] }) }
    {
        let line = log_line(alloc, note)?;
        self.log.push(line)
    }

    // Adds what is wrong at a place to the log.
    fn complain(
        &mut self,
        alloc: Global,
        complaint: Complaint<'_>,
        place: Place<'_>,
    ) -> Result<(), AllocError>
        ensures { OnOk result (self.new ≡ record self.old {
          log = self.old.log
              ++ aux_note_line (Wrong (complaint_view complaint.entry) place.entry.line place.entry.file.now) ∷ [];
        }) }
    {
        self.log_note(alloc, Note::Wrong(complaint, place))
    }

    // A piece of a `\citation`.
    #[tactic(auto, unfolding(crate::specs::refinement::Drafts::learned))]
    fn cite(
        &mut self,
        alloc: Global,
        piece: Result<&[u8], Slip>,
        place: Place<'_>,
    ) -> Result<(), AllocError>
        ensures { OnOk result (self.new ≡ learned self.old (event_at place.entry.file.now place.entry.line (Cites (piece_from piece.entry)))) }
    {
        match piece {
            Err(slip) => self.complain(alloc, Complaint::Slipped(slip), place),
            Ok(key) => {
                if key == STAR {
                    self.cite_all(alloc, key, place)
                } else {
                    self.cite_key(alloc, key, place)
                }
            }
        }
    }

    // A `*`.
    #[tactic(auto, unfolding(crate::specs::refinement::Drafts::learned))]
    fn cite_all(&mut self, alloc: Global, key: &[u8], place: Place<'_>) -> Result<(), AllocError>
        requires { is_star key.now ≡ true }
        ensures { OnOk result (self.new ≡ learned self.old (event_at place.entry.file.now place.entry.line (Cites (Taken key.now)))) }
    {
        if self.all.is_some() {
            return self.complain(alloc, Complaint::SecondStar, place);
        }
        self.all = Some(self.keys.len());
        Ok(())
    }

    // A key.
    #[tactic(auto, unfolding(crate::specs::refinement::Drafts::learned))]
    fn cite_key(&mut self, alloc: Global, key: &[u8], place: Place<'_>) -> Result<(), AllocError>
        requires { is_star key.now ≡ false }
        ensures { OnOk result (self.new ≡ learned self.old (event_at place.entry.file.now place.entry.line (Cites (Taken key.now)))) }
    {
        if self.keys.add_plainly(alloc, key)? {
            return Ok(());
        }
        let lowered = lowered(alloc, key)?;
        match self.keys.find(lowered.as_slice()) {
            None => self.keys.add(alloc, key, lowered),
            Some(earlier) => {
                if earlier == key {
                    return Ok(());
                }
                let complaint = Complaint::CaseMismatch { earlier, key };
                let line = log_line(alloc, Note::Wrong(complaint, place))?;
                self.log.push(line)
            }
        }
    }

    // The pieces of a `\citation`.
    fn cite_each(
        &mut self,
        alloc: Global,
        argument: &[u8],
        place: Place<'_>,
    ) -> Result<(), AllocError>
        ensures { OnOk result (self.new ≡ learned_words place.entry.file.now place.entry.line self.old (map Cites (pieces_of true argument.now))) }
    {
        for piece in Pieces::of(argument) {
            self.cite(alloc, piece, place)?;
        }
        Ok(())
    }

    // A `\bibdata` line.
    #[tactic(auto, unfolding(crate::specs::refinement::Drafts::learned))]
    fn take_bibdata(
        &mut self,
        alloc: Global,
        argument: &[u8],
        place: Place<'_>,
    ) -> Result<(), AllocError>
        ensures { OnOk result (self.new ≡ learned self.old (event_at place.entry.file.now place.entry.line (Databases (pieces_of true argument.now)))) }
    {
        if self.has_bibdata {
            return self.complain(alloc, Complaint::AnotherBibdata, place);
        }
        self.has_bibdata = true;
        self.databases = NameSet::new(alloc);
        self.take_databases(alloc, argument, place)
    }

    // The databases of the first `\bibdata` line.
    fn take_databases(
        &mut self,
        alloc: Global,
        argument: &[u8],
        place: Place<'_>,
    ) -> Result<(), AllocError>
        ensures { OnOk result (self.new ≡ with_databases place.entry.file.now place.entry.line self.old (pieces_of true argument.now)) }
    {
        for piece in Pieces::of(argument) {
            match piece {
                Ok(name) => self.take_database(alloc, name, place)?,
                Err(slip) => self.complain(alloc, Complaint::Slipped(slip), place)?,
            }
        }
        Ok(())
    }

    // A database.
    fn take_database(
        &mut self,
        alloc: Global,
        name: &[u8],
        place: Place<'_>,
    ) -> Result<(), AllocError>
        ensures { OnOk result (self.new ≡ with_database place.entry.file.now place.entry.line self.old name.now) }
    {
        let database = with_ending(alloc, name, BIB)?;
        if self.databases.contains(database.as_slice()) {
            let complaint = Complaint::RepeatedDatabase(database.as_slice());
            return self.complain(alloc, complaint, place);
        }
        self.databases.add(database)
    }

    // A `\bibstyle` line.
    #[tactic(auto, unfolding(crate::specs::refinement::Drafts::learned))]
    fn take_bibstyle(
        &mut self,
        alloc: Global,
        piece: Result<&[u8], Slip>,
        place: Place<'_>,
    ) -> Result<(), AllocError>
        ensures { OnOk result (self.new ≡ learned self.old (event_at place.entry.file.now place.entry.line (Styles (piece_from piece.entry)))) }
    {
        if self.has_bibstyle {
            return self.complain(alloc, Complaint::AnotherBibstyle, place);
        }
        self.has_bibstyle = true;
        match piece {
            Err(slip) => self.complain(alloc, Complaint::Slipped(slip), place),
            Ok(name) => {
                self.style = Some(Name::new(with_ending(alloc, name, BST)?));
                Ok(())
            }
        }
    }

    // An `\@input` line; gives the name of a file that is to be opened.
    #[tactic(auto, unfolding(crate::specs::refinement::Drafts::learned))]
    fn include<'l>(
        &mut self,
        alloc: Global,
        piece: Result<&'l [u8], Slip>,
        place: Place<'_>,
    ) -> Result<Option<&'l [u8]>, AllocError>
        ensures draft { OnOk result (self.new ≡ learned self.old (event_at place.entry.file.now place.entry.line (Includes (piece_from piece.entry)))) }
        ensures asked { IfOk result (λ asked. option_copied asked ≡ asked_of self.old.files (Includes (piece_from piece.entry))) }
    {
        match piece {
            Err(slip) => self.complain(alloc, Complaint::Slipped(slip), place)?,
            Ok(name) => return self.include_file(alloc, name, place),
        }
        Ok(None)
    }

    // An include of a file; gives its name where it is to be opened.
    #[tactic(auto, unfolding(crate::specs::refinement::Drafts::learned))]
    fn include_file<'l>(
        &mut self,
        alloc: Global,
        name: &'l [u8],
        place: Place<'_>,
    ) -> Result<Option<&'l [u8]>, AllocError>
        ensures draft { OnOk result (self.new ≡ learned self.old (event_at place.entry.file.now place.entry.line (Includes (Taken name.now)))) }
        ensures asked { IfOk result (λ asked. option_copied asked ≡ asked_of self.old.files (Includes (Taken name.now))) }
    {
        if !has_ending(name, AUX) {
            self.complain(alloc, Complaint::WrongExtension(name), place)?;
            return Ok(None);
        }
        if self.files.contains(name) {
            self.complain(alloc, Complaint::AlreadyMet(name), place)?;
            return Ok(None);
        }
        self.files.add(Vec::from_slice(alloc, name)?)?;
        Ok(Some(name))
    }

    /// A line; gives the name of a file that is to be opened. A line by itself doesn't end the reading.
    #[tactic(auto, using(crate::proofs::DraftLemmas::line_steps))]
    pub fn read_line<'l>(
        &mut self,
        alloc: Global,
        line: &'l [u8],
        place: Place<'_>,
    ) -> Result<Option<&'l [u8]>, AllocError>
        ensures draft { OnOk result (self.new ≡ learned_words place.entry.file.now place.entry.line self.old (words_of line.now)) }
        ensures asked { IfOk result (λ asked. option_copied asked ≡ asked_in self.old.files (words_of line.now)) }
        ensures ending { OnOk result (self.new.ending ≡ self.old.ending) }
    {
        let Some((command, argument)) = command_line(line) else {
            return Ok(None);
        };
        match command {
            Command::Citation => {
                self.cite_each(alloc, argument, place)?;
                Ok(None)
            }
            Command::Bibdata => {
                self.take_bibdata(alloc, argument, place)?;
                Ok(None)
            }
            Command::Bibstyle => {
                self.take_bibstyle(alloc, only_piece(argument), place)?;
                Ok(None)
            }
            Command::Input => self.include(alloc, only_piece(argument), place),
        }
    }

    /// A file that was found, while this number of files were open.
    pub fn open_file(&mut self, alloc: Global, name: &[u8], level: usize) -> Result<(), AllocError>
        ensures draft { OnOk result (self.new ≡ learned self.old (event_at name.now 0 (Opens level))) }
        ensures ending { OnOk result (self.new.ending ≡ self.old.ending) }
    {
        if level == 0 {
            let copy = Vec::from_slice(alloc, name)?;
            self.files.add(copy)?;
            return self.log_note(alloc, Note::TopFile(name));
        }
        self.log_note(alloc, Note::LevelFile(level, name))
    }

    /// An include of a file that isn't there.
    #[tactic(auto, unfolding(crate::specs::refinement::Drafts::learned))]
    pub fn miss_file(
        &mut self,
        alloc: Global,
        name: &[u8],
        place: Place<'_>,
    ) -> Result<(), AllocError>
        ensures { OnOk result (self.new ≡ learned self.old (event_at place.entry.file.now place.entry.line (Absent name.now))) }
    {
        self.complain(alloc, Complaint::NotOpened(name), place)
    }

    /// Whether the reading has ended before the whole was read.
    pub fn has_ended(&self) -> bool
        ensures { result ≡ not (is_whole self.now.ending) }
    {
        match self.ending {
            End::Whole => false,
            End::TooManyOpen | End::TopMissing | End::FileLimit => true,
        }
    }
}

//! The `.aux` files of a job.
ghost use Rattle.std.specs.Prelude.{◌≡◌, ◌∷◌, ◌++◌, map, not, IfErr, IfOk, IfSome, OnErr, OnOk};
ghost use Rattle.btx_aux.specs.refinement.Answers.{Answered, AsksTop, AsksTopAtMost, ByAnswers};
ghost use Rattle.btx_aux.specs.refinement.Faults.{CountsOfOne};
ghost use Rattle.btx_aux.specs.language.Job.{job_of_files};
ghost use Rattle.btx_aux.specs.refinement.Drafts.{blank};
ghost use Rattle.btx_aux.specs.refinement.Reads.{closed, topped};
ghost use Rattle.btx_aux.specs.refinement.Views.{note_view};
ghost use Rattle.btx_text.specs.language.Lists.{only_if};
ghost use Rattle.btx_aux.specs.refinement.Notes.{aux_note_line};
ghost use Rattle.btx_aux.specs.refinement.Job.{missing_notes};

use crate::draft::AuxJobBuilder;
use crate::end::End;
use crate::finder::Finder;
use crate::job::AuxJob;
use crate::notes::Note;
use crate::reading::{MOST_OPEN, open_file};
use btx_text::Fault;
use std::alloc::{AllocError, Global};

/// Reads the `.aux` files of a job: the file of this name, and those that it includes, each at the place of its `\@input` line. The
/// faults are want of memory and the device's alone; all else that is wrong stands in the job's log.
pub fn read_aux<F: Finder>(alloc: Global, finder: &mut F, top: &[u8]) -> Result<AuxJob, Fault>
    ensures job { IfOk result (λ job. IfSome (F.content finder.old) (λ files. job ≡ job_of_files files top.now)) }

    // Of every finder, whether it shows its content or not: it gave an answer for no name twice, and the job is that of all files that agree with the
    // answers that it gave. After a fault too it had given an answer for no name twice.
    ensures answered { IfOk result (λ job. ByAnswers (F.content finder.old) (F.answers finder.old) (F.answers finder.new) (AsksTop top.now)
        (λ files. job ≡ job_of_files files top.now)) }
    ensures asked { OnErr result (Answered (F.content finder.old) (F.answers finder.old) (F.answers finder.new) (AsksTopAtMost top.now)) }
    ensures counts { CountsOfOne result (F.failures finder.old, F.failures finder.new) }
    ensures stays { F.content finder.new ≡ F.content finder.old }
{
    let mut draft = AuxJobBuilder::new(alloc);
    read_top(alloc, finder, &mut draft, top)?;
    close(alloc, draft)
}

// The top file.
fn read_top<F: Finder>(
    alloc: Global,
    finder: &mut F,
    draft: &mut AuxJobBuilder,
    top: &[u8],
) -> Result<(), Fault>
    requires { draft.old ≡ blank }
    ensures draft { OnOk result (ByAnswers (F.content finder.old) (F.answers finder.old) (F.answers finder.new) (AsksTop top.now)
        (λ files. draft.new ≡ topped files top.now (files top.now))) }
    ensures asked { OnErr result (Answered (F.content finder.old) (F.answers finder.old) (F.answers finder.new) (AsksTopAtMost top.now)) }
    ensures counts { CountsOfOne result (F.failures finder.old, F.failures finder.new) }
    ensures stays { F.content finder.new ≡ F.content finder.old }
{
    let mut text = Vec::new(alloc);
    if !finder.fetch(alloc, top, &mut text)? {
        draft.ending = End::TopMissing;
        return Ok(());
    }
    open_file(alloc, finder, draft, top, text.as_slice(), MOST_OPEN)
}

// What is known, with what is missing in the whole.
fn close(alloc: Global, draft: AuxJobBuilder) -> Result<AuxJob, Fault>
    ensures job { IfOk result (λ job. job ≡ closed draft) }
    ensures fault { IfErr result (λ fault. fault ≡ Fault.Memory) }
{
    let mut draft = draft;
    if draft.ending == End::Whole {
        log_missing(alloc, &mut draft)?;
    }
    let AuxJobBuilder {
        keys,
        all,
        databases,
        has_bibdata: _,
        style,
        has_bibstyle: _,
        files: _,
        log,
        ending,
    } = draft;
    Ok(AuxJob {
        keys,
        all,
        databases,
        style,
        log,
        ending,
    })
}

// Logs what is missing: keys and `*`, a `\bibdata` line, a `\bibstyle` line.
fn log_missing(alloc: Global, draft: &mut AuxJobBuilder) -> Result<(), AllocError>
    ensures { OnOk result (draft.new ≡ record draft.old {
      log = draft.old.log
          ++ map aux_note_line (missing_notes draft.old.keys draft.old.all draft.old.has_bibdata draft.old.has_bibstyle);
    }) }
{
    let has_citation = !draft.keys.is_empty() || draft.all.is_some();
    log_unless(alloc, draft, has_citation, Note::NoCitations)?;
    let has_bibdata = draft.has_bibdata;
    log_unless(alloc, draft, has_bibdata, Note::NoBibdata)?;
    let has_bibstyle = draft.has_bibstyle;
    log_unless(alloc, draft, has_bibstyle, Note::NoBibstyle)
}

// Logs that something is missing, unless it is there.
fn log_unless(
    alloc: Global,
    draft: &mut AuxJobBuilder,
    is_there: bool,
    note: Note<'_>,
) -> Result<(), AllocError>
    ensures { OnOk result (draft.new ≡ record draft.old { log = draft.old.log ++ map aux_note_line (only_if (not is_there) (note_view note.entry)) }) }
{
    if is_there {
        return Ok(());
    }
    draft.log_note(alloc, note)
}

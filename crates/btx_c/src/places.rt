//! A job, run again over files that were handed in to note where its style stands.

use crate::cause::Cause;
use crate::handed::{BtxFile, CallerFiles};
use crate::index::Index;
use crate::kept::Kept;
use crate::noted::{Notes, Wanted};
use btx_run::Options;
use btx_where::{Scratch, locate};
use std::alloc::Global;

// How many bytes of the list and of the log a run may write that nobody reads.
const MOST_WRITTEN: usize = 128_000_000;
// What is kept of the lines of such a run.
const NOTHING: Wanted = Wanted {
    events: 0,
    places: 0,
};

/// Answers the notes of the job `name` over `files`: of the first `most` events that log errors, and of its end; or why there are none.
pub fn places(
    alloc: Global,
    name: &[u8],
    files: &[BtxFile<'_>],
    options: &Options,
    most: usize,
) -> Result<Vec<u8>, Cause> {
    let Ok(index) = Index::new(alloc, &*files) else {
        return Err(Cause::Memory);
    };
    let mut finder = CallerFiles::new(alloc, &index);
    let mut list = Kept::new(alloc, MOST_WRITTEN);
    let mut log = Kept::new(alloc, MOST_WRITTEN);
    let mut notebook = Notes::new(alloc, &*files, NOTHING);
    let mut scratch = Scratch {
        list: &mut list,
        log: &mut log,
        notebook: &mut notebook,
    };
    let mut notes = Vec::new(alloc);
    let answer = locate(
        alloc,
        &mut finder,
        name,
        options,
        most,
        &mut scratch,
        &mut notes,
    );
    match answer {
        Ok(_) => Ok(notes),
        Err(_) if finder.failures.count > 0 => Err(Cause::UnknownFile),
        Err(_) => Err(Cause::Memory),
    }
}

//! Laws of records. Each is the contract of a function with nothing to do.
ghost use Rattle.btx_read.specs.LibraryLaws.{RecordsMakeErrors, RecordsMakeLibraries, RecordsMakeReferenceMessages};
ghost use Rattle.btx_read.specs.RowLaws.{RowsShowRecords};
ghost use Rattle.btx_read.specs.WorkedLibraries.{AreMade, worked_parts};
ghost use Rattle.btx_read.specs.WorkedRecords.{HasWorkedRecords};

/// The rows of records and the room of their texts show each record: what it is, its name and its text, its bytes and its line. So records are read back
/// from rows in one way.
#[tactic(auto, using(crate::proofs::RowLemmas::rows_show_records))]
pub fn rows_show_records()
    ensures { RowsShowRecords }
{}

/// The library of a job has the entries, the preamble and the end that are made from the records of its databases. An entry with a repeated key is
/// skipped: what is left of the text after that key is read as a text of its own. Two kinds of messages are made from the records too. The last ones are
/// about references and cited keys without an entry; of those before, the errors are the records of what is wrong, and one for each repeated key.
pub fn records_make_libraries()
    ensures library { RecordsMakeLibraries }
    ensures references { RecordsMakeReferenceMessages }
    ensures errors { RecordsMakeErrors }
{}

/// The records of short databases make the libraries and the errors that are worked by hand.
pub fn worked_records_make_libraries()
    ensures { AreMade worked_parts }
{}

/// The records of a short database have the bytes and the lines that are counted by hand.
pub fn worked_records_have_their_places()
    ensures { HasWorkedRecords }
{}

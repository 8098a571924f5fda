//! What a database says, as records: every item in its order, also those that no document cites and those of a repeated key.
#![tactic(auto)]

pub mod content;
pub mod known_strings;
pub mod laws;
pub mod library_records;
mod no_keys;
mod places;
pub mod reading;
pub mod record;
pub mod row;
pub mod rows;
pub mod short_rows;
mod texts;

pub use btx_bib::strings::StringTable;
pub use content::Content;
pub use known_strings::add_string;
pub use library_records::library_rows;
pub use reading::{RecordReader, read_records};
pub use record::Record;
pub use row::Row;
pub use rows::{Rows, read_rows};
pub use short_rows::{ShortRow, ShortRows, put_rows, read_short_rows};

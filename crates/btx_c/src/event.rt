//! An event of a run, as C has it: where a line of its log stands, and where it was met.
ghost use Rattle.std.specs.Prelude.{◌≡◌, length};
ghost use Rattle.btx_c.specs.Events.{kind_number};

use btx_run::{About, Executed};
use btx_text::{LineKind, LogLine};

/// A line of the log, which is one event of the run.
#[repr(C)]
#[derive(Clone, Copy)]
pub struct BtxEvent {
    /// How many bytes of the log stand before the line.
    pub at: u64,
    /// How many bytes the line has, without its line feed.
    pub len: u64,
    /// The number of the current entry, from 0, while the style is executed for one; else `NO_ENTRY`.
    pub entry: u64,
    /// What the line is: 0 neither a warning nor an error, 1 a warning, 2 an error.
    pub kind: u32,
    /// Where it was met: 0 in the `.aux` files, or where the style and the databases are looked for; 1 in the style's text; 2 in the databases;
    /// 3 while the style is executed; 4 at the end.
    pub met: u32,
}

/// There is no current entry.
pub const NO_ENTRY: u64 = u64::MAX;

// Answers the number of a kind.
#[tactic(auto, unfolding(crate::specs::Events::kind_number))]
fn kind_number(kind: LineKind) -> u32
    ensures { result ≡ kind_number kind }
{
    match kind {
        LineKind::Plain => 0,
        LineKind::Warning => 1,
        LineKind::Error => 2,
    }
}

// Answers the number of where a line was met.
fn met_number(about: &About<'_>) -> u32 {
    match about {
        About::Files => 0,
        About::Style(_) => 1,
        About::Databases(_) => 2,
        About::Execution(_) => 3,
        About::End => 4,
    }
}

// Answers the number of the current entry where a line was met.
fn entry_number(about: &About<'_>) -> u64 {
    match about {
        About::Execution(
            Executed {
                entry: Some(entry),
                ..
            },
        ) => *entry as u64,
        _ => NO_ENTRY,
    }
}

/// Answers the event of a line that stands at `at`.
pub fn event_of(at: u64, line: &LogLine, about: About<'_>) -> BtxEvent
    ensures at { result.at ≡ at }
    ensures len { result.len ≡ length line.now.text }
    ensures kind { result.kind ≡ kind_number line.now.kind }
{
    BtxEvent {
        at,
        len: line.text().len() as u64,
        entry: entry_number(&about),
        kind: kind_number(line.kind()),
        met: met_number(&about),
    }
}

//! Outputs that nobody reads.
ghost use Rattle.std.specs.Prelude.{None};
ghost use Rattle.btx_text.specs.refinement.Counts.{no_failures};

use btx_machine::Notebook;
use btx_out::{Sink, SinkFault};

/// An output that is written again for each run, and read by nobody.
pub trait ResettableSink: Sink {
    /// Forgets what was written.
    fn forget(&mut self);
}

/// The outputs of runs that are made again, to see where their style stands. They are of the types of the first run's outputs: then there is one copy of the loop that takes the steps,
/// and the compiler inlines each step into it.
#[derive(Drop)]
pub struct Scratch<'s, W: ResettableSink, L: ResettableSink, N: Notebook> {
    pub list: &'s mut W,
    pub log: &'s mut L,
    /// What is handed the lines of these runs, once more for each run.
    pub notebook: &'s mut N,
}

impl<'s, W: ResettableSink, L: ResettableSink, N: Notebook> Scratch<'s, W, L, N> {
    /// Forgets what was written.
    pub fn forget(&mut self) {
        self.list.forget();
        self.log.forget();
    }
}

/// Takes all that is written, and keeps nothing.
#[derive(Drop)]
pub struct DiscardingSink {}

impl Sink for DiscardingSink {
    ghost received = { λ _. None };

    ghost failures = { λ _. no_failures };

    fn write(&mut self, bytes: &[u8]) -> Result<usize, SinkFault> {
        Ok(bytes.len())
    }
}

impl ResettableSink for DiscardingSink {
    fn forget(&mut self) {}
}

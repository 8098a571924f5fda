//! A log whose lines are noted.
ghost use Rattle.std.specs.Prelude.{◌≡◌};
ghost use Rattle.btx_machine.specs.declared.wholeness.Wholeness.TheVariants.{Whole};
ghost use Rattle.btx_machine.specs.refinement.Joined.{HasNoted};

use crate::log_sink::LogSink;
use crate::notebook::{About, Notebook};
use crate::since::Since;
use crate::wholeness::Wholeness;
use btx_out::{Log, Sink};
use btx_text::{Fault, LogLine};
use std::marker::Model;

/// A log whose lines are noted: each is handed to a notebook, and then written to a sink.
#[derive(Drop)]
pub struct NotedLog<'l, L: Sink, N: Notebook> {
    sink: &'l mut L,
    notebook: &'l mut N,
    wholeness: Wholeness,
    since: Since,
}

impl<'l, L: Sink, N: Notebook> Model for NotedLog<'l, L, N> {
    ghost use Rattle.btx_machine.specs.refinement.Joined.{NotedLog as Noted, HasNoted};

    ghost Value = { Noted };

    ghost view = { λ log. record {
      received = L.received log.sink.now;
      failures = L.failures log.sink.now;
      noted = N.noted log.notebook.now;
      handed = N.handed log.notebook.now;
      joined = record { sink = log.sink.ghost_name; notebook = log.notebook.ghost_name; since = log.since.at };
      wholeness = log.wholeness;
    } };

    ghost invariant = { λ log. HasNoted log.since.at (N.noted log.notebook.now) (L.received log.sink.now) log.wholeness };
}

impl<'l, L: Sink, N: Notebook> NotedLog<'l, L, N> {
    /// Joins a sink and a notebook.
    pub fn new(sink: &'l mut L, notebook: &'l mut N) -> Self
        ensures sink { result.joined.sink ≡ sink.entry.ghost_name }
        ensures notebook { result.joined.notebook ≡ notebook.entry.ghost_name }
        ensures since_received { result.joined.since.received ≡ L.received sink.old }
        ensures since_noted { result.joined.since.noted ≡ N.noted notebook.old }
        ensures received { result.received ≡ L.received sink.old }
        ensures noted { result.noted ≡ N.noted notebook.old }
        ensures handed { result.handed ≡ N.handed notebook.old }
        ensures failures { result.failures ≡ L.failures sink.old }
        ensures whole { result.wholeness ≡ Whole }
    {
        let since = since(&*sink, &*notebook);
        NotedLog {
            sink,
            notebook,
            wholeness: Wholeness::Whole,
            since,
        }
    }

    /// Gives the sink and the notebook back.
    pub fn into_parts(self) -> (&'l mut L, &'l mut N)
        ensures sink { result.0.ghost_name ≡ self.entry.joined.sink }
        ensures notebook { result.1.ghost_name ≡ self.entry.joined.notebook }
        ensures received { L.received result.0.now ≡ self.entry.received }
        ensures failures { L.failures result.0.now ≡ self.entry.failures }
        ensures noted { N.noted result.1.now ≡ self.entry.noted }
        ensures handed { N.handed result.1.now ≡ self.entry.handed }
        ensures lines { HasNoted self.entry.joined.since self.entry.noted self.entry.received self.entry.wholeness }
    {
        (self.sink, self.notebook)
    }
}

// What a sink has received and a notebook has noted now.
fn since<L: Sink, N: Notebook>(sink: &L, notebook: &N) -> Since
    ensures received { result.at.received ≡ L.received sink.now }
    ensures noted { result.at.noted ≡ N.noted notebook.now }
{
    Since::new().of(&(sink, notebook))
}

impl<'l, L: Sink, N: Notebook> LogSink for NotedLog<'l, L, N> {
    ghost received = { λ log. log.received };

    ghost failures = { λ log. log.failures };

    ghost joined = { λ log. log.joined };

    ghost noted = { λ log. log.noted };

    ghost handed = { λ log. log.handed };

    ghost wholeness = { λ log. log.wholeness };

    fn log_line(&mut self, line: &LogLine, about: About<'_>) -> Result<(), Fault> {
        self.notebook.note(line, about);
        let answer = Log::new().line(line.text(), self.sink);
        self.wholeness = self.wholeness.after(answer.is_err());
        answer
    }
}

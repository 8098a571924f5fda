//! Finders that fail or are refused memory.
use btx_aux::{FetchFault, Fetched, Finder};
use btx_text::Failures;
use std::alloc::Global;

/// A finder that fails at one fetch.
#[derive(Drop)]
pub struct FaultyFinder<F> {
    pub inner: F,
    /// The number of that fetch, from 0.
    pub fails_at: u64,
    /// What the fetch fails with.
    pub fault: FetchFault,
    /// How many fetches there were.
    pub fetches: u64,
    pub failures: Failures,
}

impl<F: Finder> Finder for FaultyFinder<F> {
    ghost content = { λ finder. F.content finder.inner };

    ghost answers = { λ finder. F.answers finder.inner };

    ghost failures = { λ finder. finder.failures };

    fn fetch(&mut self, alloc: Global, name: &[u8], into: &mut Vec<u8>) -> Fetched {
        let fails = self.fetches == self.fails_at;
        self.fetches = self.fetches.saturating_add(1);
        let answer = if fails {
            into.clear();
            Err(self.fault)
        } else {
            self.inner.fetch(alloc, name, into)
        };
        self.failures
            .note(matches!(answer, Err(FetchFault::Device)));
        answer
    }
}

//! Tests of whole runs, for what no contract says. It has no code of its own.
#![tactic(auto)]

#[cfg(test)]
mod failing_runs;
#[cfg(test)]
mod jobs;
#[cfg(test)]
mod long_jobs;
#[cfg(test)]
mod noted_runs;
#[cfg(test)]
mod rows;
#[cfg(test)]
mod spoilt;
#[cfg(test)]
mod worked;

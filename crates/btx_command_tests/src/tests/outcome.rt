//! The exit status for what a run answers, and of each end of the program.
use btx_command::{Exit, exit_status};
use btx_run::{End, Limit, Report, RunFault};

// What a run answers that came to an end with `errors` errors.
fn ended(end: End, errors: u64) -> Result<Report, RunFault> {
    Ok(Report {
        status: end.status(errors),
        end,
        steps: 4,
        deepest: 1,
        warnings: 0,
        errors,
    })
}

#[test]
fn gives_each_answer_a_status(rt: HostRuntime) {
    for (answer, status) in [
        (ended(End::Finished, 0), 0),
        (ended(End::Finished, 1), 2),
        (ended(End::Limit(Limit::Calls), 0), 3),
        (ended(End::NoTopFile, 0), 3),
        (ended(End::Stopped, 1), 4),
        (Err(RunFault::Memory), 5),
        (Err(RunFault::Device), 6),
    ] {
        assert!(rt; exit_status(&answer) == status && Exit::of(answer).status() == status);
    }
}

#[test]
fn gives_words_a_status(rt: HostRuntime) {
    assert!(rt; Exit::Shown.status() == 0 && Exit::Refused.status() == 1);
}

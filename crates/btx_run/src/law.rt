//! Laws over whole runs, each the contract of a function that does nothing.
ghost use Rattle.btx_run.specs.laws.Laws.{BudgetLaw, DirectLaw, NeedsLaw, StoppedLaw};
ghost use Rattle.btx_core.specs.laws.WorkedJobs.{JobsAreSo, worked_jobs};

/// For any two budgets: what a run with the smaller one writes begins what a run with the larger one writes, the log's last line aside; and a
/// run that isn't stopped writes and answers the same with every larger budget.
pub fn budget_law()
    ensures { BudgetLaw }
{}

/// A run that isn't stopped needs just the steps of its report: with fewer it is stopped, and with as many or more it writes and
/// answers the same. A stopped run took all its steps.
pub fn steps_law()
    ensures needed { NeedsLaw }
    ensures stopped { StoppedLaw }
{}

/// With a direct style no more bodies are open at once than the style has functions, so with at most 4,096 functions the run meets no limit of
/// calls.
pub fn direct_law()
    ensures { DirectLaw }
{}

/// What short jobs come to, each from the bytes of its files to its list, its log and its status: as the rules say, worked without
/// the definition.
pub fn worked_jobs_come_to_this()
    ensures { JobsAreSo worked_jobs }
{}

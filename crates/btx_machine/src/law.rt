//! Laws over the meaning of styles, each the contract of a function that does nothing.
ghost use Rattle.std.specs.Prelude.{◌≡◌, ◌<◌, ◌+◌, ℕ, true, false};
ghost use Rattle.btx_machine.specs.language.Saying.{counted_if};
ghost use Rattle.btx_machine.specs.laws.Budgets.{TokenBudgetLaw};
ghost use Rattle.btx_machine.specs.laws.DirectDepth.{DirectDepthLaw};
ghost use Rattle.btx_machine.specs.laws.MeaningLaws.{ExistsLaw, LimitsLaw, UniqueLaw};
ghost use Rattle.btx_machine.specs.laws.ProductLaws.{DepthLaw, RunLaw};
ghost use Rattle.btx_machine.specs.laws.StepsNeeded.{StepsNeededLaw, StoppedStepsLaw};
ghost use Rattle.btx_machine.specs.laws.WorkedBodies.{WorkedBodies};
ghost use Rattle.btx_machine.specs.laws.WorkedReports.{AreWritten, reports};

/// Each style has a meaning: the one that the contracts speak of meets the equations that a style writer knows.
pub fn meaning_exists()
    ensures { ExistsLaw }
{}

/// No style has two meanings: what meets these equations is the same for every token, body and loop, in every state and with any steps left.
pub fn meaning_is_unique()
    ensures { UniqueLaw }
{}

/// In every meaning a function of the style meets the limit of calls at once where 4,096 bodies are open or more, and only there, and `while$`
/// the limit of loops where 4,096 loops run or more, and only there.
pub fn limits_law()
    ensures { LimitsLaw }
{}

/// With a larger budget a token, and a run, ends alike or, where it was stopped, goes on from what it wrote.
pub fn budget_law()
    ensures tokens { TokenBudgetLaw }
    ensures runs { RunLaw }
{}

/// No run ever has more than 4,096 bodies open at once.
pub fn depth_law()
    ensures { DepthLaw }
{}

/// A run that isn't stopped needs just the steps of its report: with fewer it is stopped, and with as many or more it writes and
/// answers the same. A stopped run took all its steps.
pub fn steps_law()
    ensures needed { StepsNeededLaw }
    ensures stopped { StoppedStepsLaw }
{}

/// Where a direct style refers to nothing outside itself, as one that was read, and the types of the entries are its functions: no run has more
/// bodies open at once than the style has functions, so with at most 4,096 functions none meets the limit of calls.
pub fn direct_law()
    ensures { DirectDepthLaw }
{}

/// What short bodies come to: how many steps they take, how many bodies are open at once, and which limits they meet.
pub fn worked_bodies_come_to_this()
    ensures { WorkedBodies }
{}

/// The last line of the log, and the status, of each way in which a run ends.
pub fn worked_reports_are_written_so()
    ensures { AreWritten reports }
{}

/// The count of the warnings, or of the errors, of a log goes up by one with each line of its kind, and with no other, to the greatest number of 64 bits,
/// where it stays.
pub fn counts_go_up_and_stay()
    ensures rises { (count : ℕ) → count < 18446744073709551615 → counted_if true count ≡ count + 1 }
    ensures stays { counted_if true 18446744073709551615 ≡ 18446744073709551615 }
    ensures others { (count : ℕ) → counted_if false count ≡ count }
{}

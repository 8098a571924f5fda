//! Laws of what ends, each the contract of a function that does nothing.
ghost use Rattle.btx_ends.specs.Certificates.{ClaimsEnd};
ghost use Rattle.btx_ends.specs.Costs as costs;
ghost use Rattle.btx_ends.specs.Counters.{CountedLoopsEnd, CountersEnd, LessOneCounts};
ghost use Rattle.btx_ends.specs.Ends.{ReportsNoStop};
ghost use Rattle.btx_ends.specs.Keeping.{TokensKeepValues};

/// The rules of costs: for tokens one after another, for a step and what follows it, and for a loop whose measure gets smaller with each turn.
pub fn costs_add_up()
    ensures tokens { costs.TokensEnd }
    ensures steps { costs.StepsEnd }
    ensures loops { costs.LoopsEnd }
{}

/// A style of which a certificate's claims hold ends, and no report of a run of it says that the run was stopped.
pub fn claims_end()
    ensures claims { ClaimsEnd }
    ensures reports { ReportsNoStop }
{}

/// A loop that counts a global integer variable down to 0 ends within a turn more than the variable's value says; `v #1 - 'v :=` counts it down; and
/// so a loop ends whose body keeps the variable up to these tokens.
pub fn counters_end()
    ensures loops { CountersEnd }
    ensures less_one { LessOneCounts }
    ensures both { CountedLoopsEnd }
{}

/// Tokens that give a global integer variable only low integers, by themselves, in their loops and in what they call, leave it no greater than it was, or than these.
pub fn tokens_keep_values()
    ensures { TokensKeepValues }
{}

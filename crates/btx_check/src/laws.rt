//! Laws over what is promised of a clean style, each the contract of a function that does nothing.
ghost use Rattle.btx_check.specs.CalmLaws as law;

/// A fault is seen: where a command's function pops an empty stack, after other tokens, commands and turns, in what is chosen, in the test and the body of a
/// loop, for each entry; and each of the faults.
pub fn faults_are_seen()
    ensures pop { law.PopIsSeen }
    ensures pop_in_body { law.PopInBodyIsSeen }
    ensures later_pop { law.LaterPopIsSeen }
    ensures chosen_pop { law.ChosenPopIsSeen }
    ensures lack_of_test { law.LackOfTestIsSeen }
    ensures body_of_loop { law.BodyOfLoopIsSeen }
    ensures later_turn { law.LaterTurnIsSeen }
    ensures pop_in_reverse { law.PopInReverseIsSeen }
    ensures lack_of_entry { law.LackOfEntryIsSeen }
    ensures wrong_kind { law.WrongKindIsSeen }
    ensures incomparable { law.IncomparableIsSeen }
    ensures lack_of_variable { law.LackOfVariableIsSeen }
    ensures left_over { law.LeftOverIsSeen }
    ensures later_entry { law.LaterEntryIsAsked }
{}

/// The limits of literals, bodies and loops are no end of a run of a clean style, up to a budget that is greater than the command's own.
pub fn ends_are_promised()
    ensures limits { law.LimitsAreSeen }
    ensures steps { law.StepsArePromised }
{}

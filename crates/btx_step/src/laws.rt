//! Laws over what a step does, each the contract of a function that does nothing.
ghost use Rattle.std.specs.Prelude.{[]};
ghost use Rattle.btx_text.specs.declared.element_kind.TextMode.TheVariants.{Bytes, Utf8};
ghost use Rattle.btx_step.specs.laws.Applied as applied;
ghost use Rattle.btx_step.specs.laws.Laws as law;
ghost use Rattle.btx_step.specs.laws.Leaves as leaves;
ghost use Rattle.btx_step.specs.laws.Orders as order;
ghost use Rattle.btx_step.specs.laws.Starts.{FirstLimitsLaw};
ghost use Rattle.btx_step.specs.laws.WorkedAssignments as assigned;
ghost use Rattle.btx_step.specs.laws.WorkedFunctions as worked;
ghost use Rattle.btx_step.specs.laws.WorkedStores as given;

/// Of every built-in function and every stack: either all operands are there and fit, they go, and the function is done on them; or what is
/// missing is logged, else the first operand of a wrong kind, and the function's default follows.
pub fn applied_or_reported()
    ensures { applied.AppliedOrReported }
{}

/// `swap$ swap$` is nothing, and `duplicate$ pop$` is nothing.
pub fn nothing_done()
    ensures swap { law.SwapTwice }
    ensures duplicate { law.DuplicatePop }
{}

/// A string of 1,000,000 bytes is pushed where it has room, and one of more ends the run at the limit of strings: as `*` makes them.
pub fn strings_end_at_limit()
    ensures { law.StringsEndAtLimit }
{}

/// A variable that is executed after it was assigned a value pushes that value, where it wasn't cut.
pub fn reads_back()
    ensures { law.ReadsBack }
{}

/// A step changes no field, key or list, since it answers none; only `:=` changes a variable; no step changes the variables of an entry
/// that isn't the current one, which entry that is, or the greatest number of bodies that were open at once.
pub fn variables_stay()
    ensures variables { leaves.VariablesStay }
    ensures others { leaves.OtherEntriesStay }
    ensures current { leaves.CurrentStays }
    ensures deepest { leaves.DeepestStays }
{}

/// Below the literals that a step takes all others stay, but for `stack$`, which leaves none.
pub fn literals_stay()
    ensures lower { leaves.LowerLiteralsStay }
    ensures listing { leaves.ListingEmpties }
{}

/// SORT gives the one list with the same entries in which keys ascend by bytes and entries of one key stand as before.
pub fn one_order()
    ensures bytes { order.ComparesBytes }
    ensures once { order.SortedOnce }
{}

/// In each style that is read, `entry.max$` begins with the number of bytes that a string variable of an entry keeps, and `global.max$` with that of
/// a global one.
pub fn limits_begin_as_set()
    ensures { FirstLimitsLaw }
{}

/// Each built-in function does to a stack, to the variables and to what is written and logged what is worked by hand: on operands that fit, of a
/// wrong kind or missing, outside an entry and in one; and so do fields and variables, and the test of a loop.
#[tactic(auto, using(crate::proofs::FunctionRows::worked_rows))]
pub fn worked_functions_do_so()
    ensures comparisons { worked.AreSo (given.job Bytes) given.outside_entries given.one_below worked.comparisons }
    ensures integers { worked.AreSo (given.job Bytes) given.outside_entries given.one_below worked.integers }
    ensures strings { worked.AreSo (given.job Bytes) given.outside_entries given.one_below worked.strings }
    ensures names { worked.AreSo (given.job Bytes) given.outside_entries given.one_below worked.names }
    ensures stack { worked.AreSo (given.job Bytes) given.outside_entries given.one_below worked.stack }
    ensures choices { worked.AreSo (given.job Bytes) given.outside_entries given.one_below worked.choices }
    ensures wrong_operands { worked.AreSo (given.job Bytes) given.outside_entries given.one_below worked.wrong_operands }
    ensures whole_stacks { worked.AreSo (given.job Bytes) given.outside_entries [] worked.whole_stacks }
    ensures bytes_characters { worked.AreSo (given.job Bytes) given.outside_entries given.one_below worked.bytes_characters }
    ensures utf8_characters { worked.AreSo (given.job Utf8) given.outside_entries given.one_below worked.utf8_characters }
    ensures no_entry { worked.AreSo (given.job Bytes) given.outside_entries given.one_below worked.no_entry }
    ensures of_knuth { worked.AreSo (given.job Bytes) given.in_knuth given.one_below worked.of_knuth }
    ensures of_lamport { worked.AreSo (given.job Bytes) given.in_lamport given.one_below worked.of_lamport }
    ensures of_lamport_without_default { worked.AreSo given.job_without_default given.in_lamport given.one_below worked.of_lamport_without_default }
    ensures assignments { assigned.AreAssigned given.outside_entries assigned.assignments }
    ensures assignments_of_knuth { assigned.AreAssigned given.in_knuth assigned.assignments_of_knuth }
    ensures assignments_of_lamport { assigned.AreAssigned given.in_lamport assigned.assignments_of_lamport }
    ensures loop_tests { assigned.AreTested assigned.loop_tests }
{}

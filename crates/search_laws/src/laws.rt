//! The laws of the search, as contracts of functions that do nothing.

ghost use Rattle.search_laws.specs.Laws.{CertificatesAreValid, ShownStatesRefute};
ghost use Rattle.search_laws.specs.Ends.{PathsAreShort, SearchesEndThere};
ghost use Rattle.search_laws.specs.Programs.{ProgramsAreInOrder};
ghost use Rattle.search_laws.specs.Steady.{SteadyConjunctsStay, FirstConjunctsAreSteady, DivisionsKeepSteady};

/// A certificate that is found is valid for its condition and within the limits of certificates. So the condition holds
/// in every control state with every store.
pub fn certificates_are_valid()
    ensures { CertificatesAreValid }
{}

/// A state that is shown with an open condition is that of a control state, and makes the condition false.
pub fn shown_states_refute()
    ensures { ShownStatesRefute }
{}

/// Where a condition is left open or the search gives up, its path leads to the problem where it does so.
pub fn searches_end_there()
    ensures { SearchesEndThere }
{}

/// A conjunct as simplification leaves it stays as it is where no literal of it is decided.
pub fn steady_conjuncts_stay()
    ensures { SteadyConjunctsStay }
{}

/// The conjuncts of a condition's problem are as simplification leaves them.
pub fn first_conjuncts_are_steady()
    ensures { FirstConjunctsAreSteady }
{}

/// Each step of the search keeps conjuncts as simplification leaves them.
pub fn divisions_keep_steady()
    ensures { DivisionsKeepSteady }
{}

/// The facts of control of a program meet what these laws ask.
pub fn programs_are_in_order()
    ensures { ProgramsAreInOrder }
{}

/// The path of an open condition, or to where the search gave up, is short.
pub fn paths_are_short()
    ensures { PathsAreShort }
{}

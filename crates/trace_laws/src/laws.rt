//! The laws, as contracts of functions that do nothing. Each speaks of whatever processes are well formed.

ghost use Rattle.std.specs.Prelude.{◌≡◌, ◌↔◌, ◌+◌, ℕ, List, map};
ghost use Rattle.st_form.specs.Formula.{Formula};
ghost use Rattle.st_form.specs.declared.conditions.TransName.{TransName};
ghost use Rattle.st_program.specs.Programs.{WellFormed};
ghost use Rattle.st_program.specs.Tree.{Processes};
ghost use Rattle.spl_semantics.specs.Runs.{State, Reached, Follows};
ghost use Rattle.trace_player.specs.Playing.{made, too_large, illegal, outcome};
ghost use Rattle.trace_laws.specs.OneWay.{LeadsOneWay};
ghost use Rattle.trace_laws.specs.Endings.{IsWideBehind, IsStuckBehind};
ghost use Rattle.trace_laws.specs.Schedules.{IsRunOfNames};

/// In states of runs, a step's name determines its mode and the state behind it.
pub fn names_lead_one_way()
    ensures { (p : Processes) (initial : Formula) → WellFormed p → LeadsOneWay p initial }
{}

/// From a state of a run, two runs with the same names are one run.
pub fn names_make_one_run()
    ensures { (p : Processes) (initial : Formula) → WellFormed p → (s : State) (later other : List (TransName × State)) →
        Reached p initial s → Follows p s later → Follows p s other → map (λ step. step.0) later ≡ map (λ step. step.0) other → later ≡ other }
{}

/// From a state of a run, the schedules whose moves are all made are the names of the runs in whose states nothing is too large,
/// and the states that are played are that run's.
pub fn made_schedules_are_runs()
    ensures { (p : Processes) (initial : Formula) → WellFormed p →
        (s : State) (names : List TransName) (later : List (TransName × State)) (k : ℕ) →
        Reached p initial s → (outcome p names s k ≡ made later) ↔ IsRunOfNames p s names later }
{}

/// From a state of a run, a schedule stops at the first state of the run of its moves in which a number is too large, or before its
/// first move whose name no step has.
pub fn schedules_stop_where_runs_do()
    ensures too_large { (p : Processes) (initial : Formula) → WellFormed p → (s : State) (names : List TransName) (k i : ℕ) →
        Reached p initial s → (outcome p names s k ≡ too_large (k + i)) ↔ IsWideBehind p s names i }
    ensures illegal { (p : Processes) (initial : Formula) → WellFormed p → (s : State) (names : List TransName) (k i : ℕ) →
        Reached p initial s → (outcome p names s k ≡ illegal (k + i)) ↔ IsStuckBehind p s names i }
{}

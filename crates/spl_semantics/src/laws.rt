//! The laws of programs' steps and runs, each the contract of a function that does nothing.
ghost use Rattle.std.specs.Prelude.{◌≡◌, ◌↔◌, ℕ, List, length, true};
ghost use Rattle.st_form.specs.Plain.{plain};
ghost use Rattle.st_form.specs.Formula.{Formula, Situation};
ghost use Rattle.st_form.specs.declared.conditions.TransName.{TransName};
ghost use Rattle.observations.specs.Observation.{Observation};
ghost use Rattle.st_program.specs.Member.{Member};
ghost use Rattle.st_program.specs.Plain.{plain_children};
ghost use Rattle.st_program.specs.Programs.{WellFormed};
ghost use Rattle.st_program.specs.Spots.{all_spots};
ghost use Rattle.st_program.specs.Residuals.{Rests};
ghost use Rattle.st_program.specs.Tree.{Processes};
ghost use Rattle.spl_semantics.specs.Cases.{Steps};
ghost use Rattle.spl_semantics.specs.Facts.{MeetsControl, GoesOn};
ghost use Rattle.spl_semantics.specs.Fitting.{FitsProgram};
ghost use Rattle.spl_semantics.specs.Runs.{State, IsFirst, Reached, Follows, Leads, IsSeenOf};
ghost use Rattle.spl_semantics.specs.Observed.{is_enabled, observed};
ghost use Rattle.spl_semantics.specs.Steps.{steps_of};
ghost use Rattle.spl_semantics.specs.Going.{Act, begin};
ghost use Rattle.spl_semantics.specs.Stores.{Store};

use st_program::Program;

/// The list of steps and the relation by cases, on which runs stand, say the same, of whatever is left to run and in every store.
pub fn steps_by_cases()
    ensures { (p : Processes) → WellFormed p → (rs : Rests) (store : Store) (a : Act Rests) →
        Member a (steps_of rs p store) ↔ Steps p store rs a }
{}

/// Whether a name is enabled, as it is computed from the list of steps, is whether some step has the name.
pub fn enabled_where_a_step_is()
    ensures { (p : Processes) → WellFormed p → (s : State) (name : TransName) →
        is_enabled p s name ≡ true ↔ (t : State) × Leads p s name t }
{}

/// What is seen of a run is what is computed from the lists of its states' steps, and that alone.
pub fn seen_as_computed()
    ensures { (p : Processes) → WellFormed p → (s : State) (later : List (TransName × State)) (o : Observation Situation) →
        IsSeenOf p s later o ↔ (o ≡ observed p s later) }
{}

/// What is left at the start fits the program, and a step from what fits leads to what fits: its numbers name statements and
/// bodies of the right kind, and inside a cooperation there is one part for each child.
pub fn steps_fit()
    ensures first { (p : Processes) → WellFormed p → FitsProgram p (begin p (length (all_spots p))) }
    ensures next { (p : Processes) → WellFormed p → (rs : Rests) (store : Store) (a : Act Rests) →
        FitsProgram p rs → Member a (steps_of rs p store) → FitsProgram p a.left }
{}

/// Every state of every run of well-formed processes meets the control facts: each active component is at exactly one of its
/// alternatives, and control is at the locations among these. So does every state of every run of the program.
pub fn runs_meet_control(program: &Program)
    ensures of_all { (p : Processes) (initial : Formula) → WellFormed p → (s : State) → Reached p initial s → MeetsControl p s }
    ensures of_program { (s : State) → Reached (plain_children program.now.processes) (plain program.now.initial) s →
        MeetsControl (plain_children program.now.processes) s }
{
    let _ = &program.processes;
}

/// Every run of well-formed processes has an extension whose last part is as many consecutive rounds as are wanted. So has every
/// run of the program.
pub fn rounds_exist(program: &Program)
    ensures of_all { (p : Processes) (initial : Formula) → WellFormed p → (s : State) (later : List (TransName × State)) (n : ℕ) →
        IsFirst p initial s → Follows p s later → GoesOn p s later n }
    ensures of_program { (s : State) (later : List (TransName × State)) (n : ℕ) →
        IsFirst (plain_children program.now.processes) (plain program.now.initial) s →
        Follows (plain_children program.now.processes) s later →
        GoesOn (plain_children program.now.processes) s later n }
{
    let _ = &program.processes;
}

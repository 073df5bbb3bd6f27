//! The laws of the translation, each the contract of a function that does nothing. Each speaks of whatever is a typed program.

ghost use Rattle.std.specs.Prelude.{◌≡◌, ℕ, List, length};
ghost use Rattle.observations.specs.Observation.{Observation};
ghost use Rattle.st_form.specs.Formula.{Formula, Situation};
ghost use Rattle.st_form.specs.declared.variables.Variable.{Variable};
ghost use Rattle.st_program.specs.Tree.{Processes, Pieces, action, group};
ghost use Rattle.st_program.specs.Member.{Member};
ghost use Rattle.st_program.specs.Programs.{IsProgram};
ghost use Rattle.st_program.specs.Spots.{Spot, all_spots};
ghost use Rattle.st_program.specs.Groups.{paths_along};
ghost use Rattle.transition_system.specs.Meaning.{IsRun};
ghost use Rattle.spl_semantics.specs.Runs.{State, IsFirst, IsRunOf, image};
ghost use Rattle.spl_translation.specs.Translation.{path_modes, translation};
ghost use Rattle.spl_translation.specs.Correspondence.{Corresponds};

/// A program corresponds to its translation: from each state of each run, the steps of the one are the steps of the other.
pub fn programs_correspond()
    ensures { (variables : List Variable) (initial : Formula) (p : Processes) (locations statements : ℕ) →
        IsProgram variables initial p locations statements → Corresponds p initial (translation variables initial p locations) }
{}

/// What is seen of a run of a program is what is seen of a run of its translation.
pub fn runs_are_runs()
    ensures { (variables : List Variable) (initial : Formula) (p : Processes) (locations statements : ℕ) →
        IsProgram variables initial p locations statements → (o : Observation Situation) →
        IsRunOf p initial o → IsRun (translation variables initial p locations) o }
{}

/// And what is seen of a run of the translation that begins where a program may begin is what is seen of a run of the program.
pub fn runs_come_from_runs()
    ensures { (variables : List Variable) (initial : Formula) (p : Processes) (locations statements : ℕ) →
        IsProgram variables initial p locations statements → (o : Observation Situation) →
        IsRun (translation variables initial p locations) o → (s : State) → IsFirst p initial s → o.first.state ≡ image p s →
        IsRunOf p initial o }
{}

/// A group has a mode for each of its paths: none is lost because its composed numbers were too large.
pub fn groups_have_all_paths()
    ensures { (variables : List Variable) (initial : Formula) (p : Processes) (locations statements : ℕ) →
        IsProgram variables initial p locations statements → (x : Spot) (pieces : Pieces) (l next : ℕ) →
        Member x (all_spots p) → action x.stmt ≡ group pieces →
        length (path_modes l (paths_along pieces) next) ≡ length (paths_along pieces) }
{}

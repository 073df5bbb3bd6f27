//! That the image of states is a bisimulation, each the contract of a function that does nothing.
ghost use Rattle.std.specs.Prelude.{◌≡◌, ◌↔◌, ℕ, List};
ghost use Rattle.st_form.specs.Formula.{Formula, Situation};
ghost use Rattle.st_form.specs.declared.variables.Variable.{Variable};
ghost use Rattle.st_program.specs.Tree.{Processes};
ghost use Rattle.st_program.specs.Programs.{IsProgram};
ghost use Rattle.observations.specs.Observation.{Observation};
ghost use Rattle.transition_system.specs.Meaning.{IsRun};
ghost use Rattle.spl_semantics.specs.Runs.{State, IsFirst, IsRunOf, image};
ghost use Rattle.spl_translation.specs.Translation.{translation};
ghost use Rattle.bisimulation_laws.specs.Bisimulation.{IsBisimilar};

/// A typed program and its translation are bisimilar, by the image of states.
pub fn programs_are_bisimilar()
    ensures { (variables : List Variable) (initial : Formula) (p : Processes) (locations statements : ℕ) →
        IsProgram variables initial p locations statements → IsBisimilar p initial (translation variables initial p locations) }
{}

/// What is seen of a run of the program is what is seen of a run of its translation from the image of a first state, and that
/// alone.
pub fn runs_are_the_same()
    ensures { (variables : List Variable) (initial : Formula) (p : Processes) (locations statements : ℕ) →
        IsProgram variables initial p locations statements → (o : Observation Situation) →
        IsRunOf p initial o ↔
        (IsRun (translation variables initial p locations) o × ((s : State) × IsFirst p initial s × (o.first.state ≡ image p s))) }
{}

//! What a judgement on one run says of all runs, each the contract of a function that does nothing.
ghost use Rattle.std.specs.Prelude.{ℕ, List, ◌++◌};
ghost use Rattle.st_form.specs.Formula.{Formula, Situation};
ghost use Rattle.st_form.specs.declared.conditions.TransName.{TransName};
ghost use Rattle.st_program.specs.Programs.{WellFormed};
ghost use Rattle.st_program.specs.Tree.{Processes};
ghost use Rattle.observations.specs.Observation.{Observation};
ghost use Rattle.spl_semantics.specs.Runs.{State, IsSeenOf, IsRunOf};
ghost use Rattle.temporal_goals.specs.Texts.{PlainGoal};
ghost use Rattle.obligation_laws.specs.Obligations.{HoldsOnRuns};
ghost use Rattle.run_judging.specs.declared.judged.Judged.TheVariants.{Holds, Fails};
ghost use Rattle.trace_player.specs.Judgements.{IsClear, GoalFrom, JudgedOn};
ghost use Rattle.played_goals.specs.Failures.{FailsOn, FailsBehind};

/// A goal that holds on every run of a program never fails on a run of it, so a failure refutes the goal; and it is judged to hold
/// where no number in it is too large.
pub fn proved_goals_never_fail()
    ensures fails { (p : Processes) (initial : Formula) (goal : PlainGoal) → HoldsOnRuns p initial goal →
        (o : Observation Situation) → IsRunOf p initial o → FailsOn goal o → ⊥ }
    ensures holds { (p : Processes) (initial : Formula) (goal : PlainGoal) → HoldsOnRuns p initial goal →
        (o : Observation Situation) → IsRunOf p initial o → IsClear goal o → JudgedOn goal o Holds }
{}

/// A goal that fails at a position of a run fails there on each run that goes on from it, so that it doesn't hold on any of them.
pub fn failures_stay()
    ensures there { (p : Processes) → WellFormed p → (s : State) (later more : List (TransName × State)) (o longer : Observation Situation) →
        IsSeenOf p s later o → IsSeenOf p s (later ++ more) longer →
        (goal : PlainGoal) (i : ℕ) → JudgedOn goal o (Fails i) → GoalFrom goal longer i → ⊥ }
    ensures whole { (p : Processes) → WellFormed p → (s : State) (later : List (TransName × State)) (o : Observation Situation) →
        IsSeenOf p s later o → (goal : PlainGoal) → FailsOn goal o → FailsBehind p s later goal }
{}

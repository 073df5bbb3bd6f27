//! What goals of programs say of infinite runs, each the contract of a function that does nothing.
ghost use Rattle.std.specs.Prelude.{ℕ, List, ◌↔◌};
ghost use Rattle.st_form.specs.Formula.{Formula, Situation};
ghost use Rattle.st_form.specs.declared.conditions.TransName.{TransName};
ghost use Rattle.st_form.specs.Plain.{plain};
ghost use Rattle.st_program.specs.Plain.{plain_children};
ghost use Rattle.st_program.specs.Programs.{WellFormed};
ghost use Rattle.st_program.specs.Tree.{Processes};
ghost use Rattle.spl_semantics.specs.Runs.{State, IsFirst, Follows, IsRunOf, image};
ghost use Rattle.temporal_goals.specs.Texts.{PlainGoal};
ghost use Rattle.obligation_laws.specs.Obligations.{HoldsOnRuns};
ghost use Rattle.fair_computations.specs.Computations.{Computation, beginning};
ghost use Rattle.fair_computations.specs.Fair.{IsFair, IsFairByTheBooks, IsFairClassically, SearchesEnd};
ghost use Rattle.fair_runs.specs.Programs.{IsComputationOf, GoesOnFairly};
ghost use Rattle.fair_runs.specs.Goals.{HoldsAlong, HoldsEventually};
ghost use Rattle.fair_runs.specs.Sequences.{IsSequenceOf, IsFairSequence, IsFairSequenceByTheBooks, IsFairSequenceClassically};
ghost use Rattle.fair_runs.specs.Meeting.{IsMet};
ghost use Rattle.fair_runs.specs.Kept.{IsKept};
ghost use Rattle.fair_runs.specs.Promises.{Promise};

use st_program::Program;

/// What is seen of a beginning of an infinite run of a program is what is seen of a run of it.
pub fn beginnings_are_runs()
    ensures { (p : Processes) (initial : Formula) (c : Computation Situation) →
        IsComputationOf p initial c → (n : ℕ) → IsRunOf p initial (beginning c n) }
{}

/// What holds on every run of a program holds in the books' sense along each of its fair computations.
pub fn goals_hold_along()
    ensures { (p : Processes) (initial : Formula) (goal : PlainGoal) → HoldsOnRuns p initial goal →
        (c : Computation Situation) → IsComputationOf p initial c → IsFair c → HoldsAlong goal c.state }
{}

/// And so it does with "eventually" for "there is" throughout.
pub fn goals_hold_eventually()
    ensures { (p : Processes) (initial : Formula) (goal : PlainGoal) → HoldsOnRuns p initial goal →
        (c : Computation Situation) → IsComputationOf p initial c → IsFairClassically c → HoldsEventually goal c.state }
{}

/// So it is along every fair sequence of its states, where a step has no name, and may be one of several.
pub fn goals_hold_along_sequences()
    ensures known { (p : Processes) (initial : Formula) (goal : PlainGoal) → WellFormed p → HoldsOnRuns p initial goal →
        (state : ℕ → State) → IsSequenceOf p initial state → IsFairSequence p state → HoldsAlong goal (λ k. image p (state k)) }
    ensures words { (p : Processes) (initial : Formula) (goal : PlainGoal) → WellFormed p → HoldsOnRuns p initial goal → SearchesEnd →
        (state : ℕ → State) → IsSequenceOf p initial state → IsFairSequenceByTheBooks p state → HoldsAlong goal (λ k. image p (state k)) }
    ensures classical { (p : Processes) (initial : Formula) (goal : PlainGoal) → WellFormed p → HoldsOnRuns p initial goal →
        (state : ℕ → State) → IsSequenceOf p initial state → IsFairSequenceClassically p state → HoldsEventually goal (λ k. image p (state k)) }
{}

/// So every goal that holds on all runs of a program holds along all its computations as the books define them: where each
/// search ends, and with "eventually" for "there is" in any case.
pub fn promises_are_the_books(program: &Program)
    ensures words { (goal : PlainGoal) → HoldsOnRuns (plain_children program.now.processes) (plain program.now.initial) goal → SearchesEnd →
        (state : ℕ → State) → IsSequenceOf (plain_children program.now.processes) (plain program.now.initial) state →
        IsFairSequenceByTheBooks (plain_children program.now.processes) state →
        HoldsAlong goal (λ k. image (plain_children program.now.processes) (state k)) }
    ensures classical { (goal : PlainGoal) → HoldsOnRuns (plain_children program.now.processes) (plain program.now.initial) goal →
        (state : ℕ → State) → IsSequenceOf (plain_children program.now.processes) (plain program.now.initial) state →
        IsFairSequenceClassically (plain_children program.now.processes) state →
        HoldsEventually goal (λ k. image (plain_children program.now.processes) (state k)) }
{
    let _ = &program.processes;
}

/// The states of a program's computation are a sequence of its states, and a fair one where the computation is fair by the
/// names of its steps.
pub fn fair_computations_are_fair_sequences()
    ensures sequence { (p : Processes) (initial : Formula) → (c : Computation Situation) (run : IsComputationOf p initial c) →
        IsSequenceOf p initial run.state }
    ensures known { (p : Processes) (initial : Formula) → WellFormed p → (c : Computation Situation) (run : IsComputationOf p initial c) →
        IsFair c → IsFairSequence p run.state }
    ensures words { (p : Processes) (initial : Formula) → WellFormed p → (c : Computation Situation) (run : IsComputationOf p initial c) →
        IsFairByTheBooks c → IsFairSequenceByTheBooks p run.state }
    ensures classical { (p : Processes) (initial : Formula) → WellFormed p → (c : Computation Situation) (run : IsComputationOf p initial c) →
        IsFairClassically c → IsFairSequenceClassically p run.state }
{}

/// Every run of a well-formed program is a beginning of one of its fair computations.
pub fn runs_go_on_fairly()
    ensures { (p : Processes) (initial : Formula) → WellFormed p → (s : State) (later : List (TransName × State)) →
        IsFirst p initial s → Follows p s later → GoesOnFairly p initial s later }
{}

/// A response that holds on every run of a well-formed program is met: behind each position of a run at which it is owed, the run
/// can go on so that its target comes.
pub fn responses_are_met()
    ensures { (p : Processes) (initial : Formula) (goal : PlainGoal) → WellFormed p → HoldsOnRuns p initial goal → IsMet p initial goal }
{}

/// All of this of a goal, in one sentence: what holds on every run of a well-formed program is kept.
pub fn goals_are_kept()
    ensures { (p : Processes) (initial : Formula) (goal : PlainGoal) → WellFormed p → HoldsOnRuns p initial goal → IsKept p initial goal }
{}

/// What is promised of a goal, in few definitions, is that it is kept.
pub fn promise_is_kept()
    ensures { (p : Processes) (initial : Formula) (goal : PlainGoal) → Promise p initial goal ↔ IsKept p initial goal }
{}

//! That the tests say what the relations say, each the contract of a function that does nothing.
ghost use Rattle.std.specs.Prelude.{◌≡◌, ◌↔◌, ◌≤◌, ℕ, suc, List, Bool, Option, ℤ};
ghost use Rattle.std.specs.Bool.{Decides};
ghost use Rattle.observations.specs.Observation.{Observation, last};
ghost use Rattle.observations.specs.Rounds.{Rounds};
ghost use Rattle.observations.specs.Goals.{HoldsAt, WaitsFrom, RespondsFrom};
ghost use Rattle.run_judging.specs.Greatest.{AreGreatest};
ghost use Rattle.run_judging.specs.Judging.{IsFirstFailure};
ghost use Rattle.judging_laws.specs.Searching.{first_failure};
ghost use Rattle.judging_laws.specs.Counted.{has_rounds, round_counts};
ghost use Rattle.judging_laws.specs.Sentences.{holds_at, waits_from, responds_from};

/// The test for consecutive rounds is true exactly where they lead from the one position to the other.
pub fn rounds_are_tested<S>(_state: &S)
    ensures { (o : Observation S) (n k l : ℕ) → Decides (has_rounds o n k l) (Rounds o n k l) }
{}

/// The counts are the greatest numbers of rounds, and no other list of numbers is.
pub fn counts_are_greatest<S>(_state: &S)
    ensures { (o : Observation S) (counts : List ℕ) → AreGreatest o counts ↔ (counts ≡ round_counts o) }
{}

/// The test for a nested waiting-for is true exactly where it holds from the position.
pub fn waiting_is_tested<S>(_state: &S)
    ensures { (p : S → Bool) (forms : List (S → Bool)) (o : Observation S) (i : ℕ) →
        i ≤ last o → Decides (waits_from p forms o i) (WaitsFrom p forms o i) }
{}

/// The test for a response is true exactly where it holds from the position.
pub fn responses_are_tested<S>(_state: &S)
    ensures { (p q : S → Bool) (e : S → ℤ) (o : Observation S) (i : ℕ) →
        i ≤ last o → Decides (responds_from p q e o i) (RespondsFrom p q e o i) }
{}

/// The first failure of an invariance is that of its test, and nothing else is.
pub fn invariances_first_fail<S>(_state: &S)
    ensures { (p : S → Bool) (o : Observation S) (failure : Option ℕ) →
        IsFirstFailure (suc (last o)) (HoldsAt p o) failure ↔ (failure ≡ first_failure (suc (last o)) (holds_at p o)) }
{}

/// So is the first failure of a nested waiting-for.
pub fn waitings_first_fail<S>(_state: &S)
    ensures { (p : S → Bool) (forms : List (S → Bool)) (o : Observation S) (failure : Option ℕ) →
        IsFirstFailure (suc (last o)) (WaitsFrom p forms o) failure ↔ (failure ≡ first_failure (suc (last o)) (waits_from p forms o)) }
{}

/// So is that of a response.
pub fn responses_first_fail<S>(_state: &S)
    ensures { (p q : S → Bool) (e : S → ℤ) (o : Observation S) (failure : Option ℕ) →
        IsFirstFailure (suc (last o)) (RespondsFrom p q e o) failure ↔ (failure ≡ first_failure (suc (last o)) (responds_from p q e o)) }
{}

//! What goals follow from goals on one run, each the contract of a function that does nothing.
ghost use Rattle.std.specs.Prelude.{◌≤◌, ℕ, List, [], ◌∷◌, Bool, not, ◌&&◌, ◌||◌, ℤ, pos, ◌+ℤ◌};
ghost use Rattle.observations.specs.Observation.{Moment, Observation, last};
ghost use Rattle.observations.specs.Goals.{HoldsAt, WaitsFrom, RespondsFrom, Invariance, Waiting, Response};
ghost use Rattle.observations.specs.Extension.{extended};
ghost use Rattle.goal_laws.specs.Implied.{Implies, EachImplies, AtMost};

/// A formula that is weaker than an invariance is one (rule MON-I), and two invariances are one (rule CON-I).
pub fn invariances_follow<S>(_state: &S)
    ensures weaker { (p q : S → Bool) (o : Observation S) → Implies p q o → Invariance p o → Invariance q o }
    ensures both { (p q : S → Bool) (o : Observation S) → Invariance p o → Invariance q o → Invariance (λ s. p s && q s) o }
{}

/// A nested waiting-for holds with a stronger premise and weaker formulas.
pub fn waitings_follow<S>(_state: &S)
    ensures { (p q : S → Bool) (forms others : List (S → Bool)) (o : Observation S) →
        Implies q p o → EachImplies forms others o → Waiting p forms o → Waiting q others o }
{}

/// A response holds with a stronger premise, a weaker target and a bound that is at least as large (rule MON-R).
pub fn responses_follow<S>(_state: &S)
    ensures { (p q x y : S → Bool) (d e : S → ℤ) (o : Observation S) →
        Implies x p o → Implies q y o → AtMost x d e o → Response p q d o → Response x y e o }
{}

/// What holds where p does comes from p at once, within any bound (reflexivity).
pub fn responses_at_once<S>(_state: &S)
    ensures { (p q : S → Bool) (e : S → ℤ) (o : Observation S) → Implies p q o → Response p q e o }
{}

/// From p comes q, and from q comes r within c rounds: so from p comes r (rule TRANS-R), within a bound that is at least the sum of
/// both, and at least c where the first one is negative.
pub fn responses_chain<S>(_state: &S)
    ensures { (p q r : S → Bool) (d e : S → ℤ) (c : ℕ) (o : Observation S) →
        AtMost p (λ s. d s +ℤ pos c) e o → AtMost p (λ s. pos c) e o →
        Response p q d o → Response q r (λ s. pos c) o → Response p r e o }
{}

/// What comes from each of two formulas comes from their disjunction (proof by cases).
pub fn responses_by_cases<S>(_state: &S)
    ensures { (p q r : S → Bool) (e : S → ℤ) (o : Observation S) →
        Response p r e o → Response q r e o → Response (λ s. p s || q s) r e o }
{}

/// Where a holds from p on until b does, and it comes that a doesn't hold, b comes.
pub fn waiting_ends<S>(_state: &S)
    ensures { (p a b : S → Bool) (e : S → ℤ) (o : Observation S) →
        Waiting p (a ∷ b ∷ []) o → Response p (λ s. not (a s)) e o → Response p b e o }
{}

/// Where a holds from r on until b does, what comes from p comes from both while a holds, or b comes (the rule of progress, safety
/// and progress: Chandy and Misra, *Parallel Program Design*, chapter 3).
pub fn waiting_goes_along<S>(_state: &S)
    ensures { (p q r a b : S → Bool) (e : S → ℤ) (o : Observation S) →
        Response p q e o → Waiting r (a ∷ b ∷ []) o → Response (λ s. p s && r s) (λ s. (q s && a s) || b s) e o }
{}

/// What holds from a position of a run held from there on each beginning of the run that has the position: so what failed on a
/// beginning fails on the run.
pub fn goals_hold_on_beginnings<S>(_state: &S)
    ensures invariance { (p : S → Bool) (o : Observation S) (extra : List (ℕ × Moment S)) (i : ℕ) → i ≤ last o →
        HoldsAt p (extended o extra) i → HoldsAt p o i }
    ensures waiting { (p : S → Bool) (forms : List (S → Bool)) (o : Observation S) (extra : List (ℕ × Moment S)) (i : ℕ) → i ≤ last o →
        WaitsFrom p forms (extended o extra) i → WaitsFrom p forms o i }
    ensures response { (p q : S → Bool) (e : S → ℤ) (o : Observation S) (extra : List (ℕ × Moment S)) (i : ℕ) → i ≤ last o →
        RespondsFrom p q e (extended o extra) i → RespondsFrom p q e o i }
{}

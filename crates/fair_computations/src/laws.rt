//! What holds of fair computations, each the contract of a function that does nothing.
ghost use Rattle.std.specs.Prelude.{◌≡◌, ◌≤◌, ◌↔◌, ◌⊎◌, ℕ, List, Bool, true, false, ℤ};
ghost use Rattle.observations.specs.Rounds.{Round, Rounds};
ghost use Rattle.observations.specs.Goals.{Invariance, Waiting, Response};
ghost use Rattle.fair_computations.specs.Computations.{Computation, beginning};
ghost use Rattle.fair_computations.specs.Fair.{AgainAndAgain, FromSomeOn, IsFair, IsFairByTheBooks, IsFairClassically, IsSettled, SearchesEnd};
ghost use Rattle.fair_computations.specs.Endless.{RoundsAlong, RoundsBegin, RoundsBeginAtLast, EndlessRounds};
ghost use Rattle.fair_computations.specs.Goals.{InvarianceOf, WaitingOf, ResponseOf, EventuallyResponds};

/// What is known to be fair is fair by the books and by classical logic; what is fair by the books and settled is known to be
/// fair; and where each search ends, all is settled, so that the three readings are one.
pub fn readings_of_fairness<S>(_state: &S)
    ensures words { (c : Computation S) → IsFair c → IsFairByTheBooks c }
    ensures classical { (c : Computation S) → IsFair c → IsFairClassically c }
    ensures settled { (c : Computation S) → IsSettled c → IsFairByTheBooks c → IsFair c }
    ensures searches { (c : Computation S) → SearchesEnd → IsSettled c }
    ensures one { (c : Computation S) → SearchesEnd → IsFairClassically c → IsFair c }
{}

/// Rounds of a beginning are rounds of every longer one, and of each that is long enough.
pub fn rounds_stay<S>(_state: &S)
    ensures one { (c : Computation S) (k l m n : ℕ) → l ≤ n → Round (beginning c m) k l → Round (beginning c n) k l }
    ensures many { (c : Computation S) (r k l m n : ℕ) → l ≤ n → Rounds (beginning c m) r k l → Rounds (beginning c n) r k l }
{}

/// On a fair computation there is a position from which on a round begins at each position.
pub fn rounds_begin<S>(_state: &S)
    ensures { (c : Computation S) → IsFair c → (K : ℕ) × RoundsBegin c K }
{}

/// Where a round begins at each position, so do as many consecutive rounds as are wanted, and an endless sequence of rounds.
pub fn rounds_follow<S>(_state: &S)
    ensures many { (c : Computation S) (K : ℕ) → RoundsBegin c K → (n k : ℕ) → K ≤ k → (l : ℕ) × RoundsAlong c n k l }
    ensures endless { (c : Computation S) (K : ℕ) → RoundsBegin c K → (k : ℕ) → K ≤ k → (rounds : EndlessRounds c) × (rounds.bound 0 ≡ k) }
{}

/// A computation with an endless sequence of rounds is fair.
pub fn endless_rounds_are_fair<S>(_state: &S)
    ensures words { (c : Computation S) → EndlessRounds c → IsFairByTheBooks c }
    ensures classical { (c : Computation S) → EndlessRounds c → IsFairClassically c }
{}

/// It is not known from endless rounds which case of compassion is there: else it would be known of each test whether it is
/// true again and again.
pub fn rounds_tell_no_case()
    ensures { ((c : Computation Bool) → EndlessRounds c → IsFair c) →
        (test : ℕ → Bool) → AgainAndAgain (λ k. test k ≡ true) ⊎ FromSomeOn (λ k. test k ≡ false) }
{}

/// That for each number so many consecutive rounds begin at a position is not enough: they need not go on.
pub fn many_rounds_are_not_enough()
    ensures { (c : Computation Bool) × ((n : ℕ) → (l : ℕ) × RoundsAlong c n 0 l)
        × (IsFairByTheBooks c → ⊥) × (IsFairClassically c → ⊥) }
{}

/// By classical logic a computation is fair exactly where from some position on a round begins at each position.
pub fn fair_where_rounds_begin<S>(_state: &S)
    ensures { (c : Computation S) → IsFairClassically c ↔ RoundsBeginAtLast c }
{}

/// A response within rounds on every beginning is a response on every fair computation.
pub fn responses_come<S>(_state: &S)
    ensures { (p q : S → Bool) (e : S → ℤ) (c : Computation S) →
        ((n : ℕ) → Response p q e (beginning c n)) → IsFair c → ResponseOf p q c.state }
{}

/// And so it is in the books' words, where each search ends, as by the law of the excluded middle it does.
pub fn responses_come_by_the_books<S>(_state: &S)
    ensures { (p q : S → Bool) (e : S → ℤ) (c : Computation S) → SearchesEnd →
        ((n : ℕ) → Response p q e (beginning c n)) → IsFairByTheBooks c → ResponseOf p q c.state }
{}

/// And so it is where "there is" is read as "eventually" throughout, with nothing known of the computation.
pub fn responses_come_eventually<S>(_state: &S)
    ensures { (p q : S → Bool) (e : S → ℤ) (c : Computation S) →
        ((n : ℕ) → Response p q e (beginning c n)) → IsFairClassically c → EventuallyResponds p q c.state }
{}

/// An invariance holds at all positions exactly where it holds on every beginning.
pub fn invariances_hold<S>(_state: &S)
    ensures { (p : S → Bool) (c : Computation S) → ((n : ℕ) → Invariance p (beginning c n)) ↔ InvarianceOf p c.state }
{}

/// A nested waiting-for has levels for all positions exactly where it has levels for those of every beginning.
pub fn waitings_hold<S>(_state: &S)
    ensures { (p : S → Bool) (forms : List (S → Bool)) (c : Computation S) →
        ((n : ℕ) → Waiting p forms (beginning c n)) ↔ WaitingOf p forms c.state }
{}

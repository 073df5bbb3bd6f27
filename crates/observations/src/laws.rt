//! The theorems on observations, each the contract of a function that does nothing.
ghost use Rattle.std.specs.Prelude.{◌↔◌, List, Bool, ℤ};
ghost use Rattle.observations.specs.Observation.{Observation};
ghost use Rattle.observations.specs.Goals.{Waiting, Response, HoldsAt, Throughout};
ghost use Rattle.observations.specs.Waits.{Waits};
ghost use Rattle.observations.specs.RankedNet.{Node, NetHolds};
ghost use Rattle.observations.specs.NestedNet.{NestedNode, NestedHolds};
ghost use Rattle.observations.specs.Diagram.{DrawnNode, DrawnHolds};

/// A ranked net reaches its target within the stated number of rounds, whenever these begin.
pub fn net_bounds<S>(_state: &S)
    ensures { (nodes : List (Node S)) (p q : S → Bool) (e : S → ℤ) (o : Observation S) →
        NetHolds nodes p q e o → Response p q e o }
{}

/// So does a net whose groups stand in groups.
pub fn nested_net_bounds<S>(_state: &S)
    ensures { (nodes : List (NestedNode S)) (p q : S → Bool) (e : S → ℤ) (o : Observation S) →
        NestedHolds nodes p q e o → Response p q e o }
{}

/// So does a chain or rank diagram, which is a net without groups.
pub fn diagram_bounds<S>(_state: &S)
    ensures { (nodes : List (DrawnNode S)) (terminal p q : S → Bool) (e : S → ℤ) (o : Observation S) →
        DrawnHolds nodes terminal p q e o → Response p q e o }
{}

/// Nested waiting-for by cases and by levels say the same: where the formulas hold in turn from each state in which p holds, there
/// are levels for them that never rise, and the other way round.
pub fn waiting_has_levels<S>(_state: &S)
    ensures { (p : S → Bool) (forms : List (S → Bool)) (o : Observation S) →
        Throughout o (λ i. HoldsAt p o i → Waits o forms i) ↔ Waiting p forms o }
{}

//! What is seen of a run, its fairness rounds, and what the goals of temporal logic say of it.
//!
//! An observation lists the states of a finite run, the names that are enabled in each of them, and the name of each
//! step. It knows neither programs nor transitions, so whatever is proved of it holds for runs of both. The notions are
//! those of Manna and Pnueli, *Temporal Verification of Reactive Systems: Safety* (1995) and *Progress* (draft, 1996):
//! justice, compassion, invariance, nested waiting-for and response. They are read on finite runs here, by rounds.
#![tactic(auto)]

ghost use Rattle.std.specs.Prelude.{◌≡◌, ◌⊎◌, ◌↔◌, IsTrue};

pub mod laws;

/// What a run owes to a transition, which it may take again and again.
#[derive(Clone, Copy, Debug, PartialEq, Eq)]
pub enum Fairness {
    /// Nothing: the run may leave it for ever, as a process may stay in its noncritical section.
    Unfair,
    /// Justice: the run doesn't leave it for ever where it is enabled all the time.
    Just,
    /// Compassion: the run doesn't leave it for ever where it is enabled again and again. It is just as well.
    Compassionate,
}

impl Fairness {
    ghost use Rattle.observations.specs.declared.Fairness.TheVariants.{Just, Compassionate};

    /// Whether justice is owed. A compassionate transition is just as well.
    pub fn is_just(self) -> bool
        ensures { IsTrue result ↔ ((self ≡ Just) ⊎ (self ≡ Compassionate)) }
    {
        matches!(self, Fairness::Just | Fairness::Compassionate)
    }

    /// Whether compassion is owed.
    pub fn is_compassionate(self) -> bool
        ensures { IsTrue result ↔ (self ≡ Compassionate) }
    {
        matches!(self, Fairness::Compassionate)
    }
}

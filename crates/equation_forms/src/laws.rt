//! The law, the contract of a function that does nothing.

ghost use Rattle.std.specs.Prelude.{◌≡◌, ℕ};
ghost use Rattle.st_linear.specs.Linear.{AreEntries};
ghost use Rattle.st_form.specs.Formula.{Situation, truth, is_zero};
ghost use Rattle.control_states.specs.declared.alternative.Alternative.{Alternative};
ghost use Rattle.control_states.specs.Control.{ControlFacts, InControl};
ghost use Rattle.equation_laws.specs.Equations.{PlainEquation, worth};
ghost use Rattle.equation_forms.specs.Formulas.{AreOwned, formula_of};

/// In every control state, with every store, the formula of an equation is true exactly where the equation holds.
pub fn formulas_say_their_equations()
    ensures { (k : ControlFacts) (place : ℕ → Alternative) (s : Situation) (e : PlainEquation) → InControl k place s.located
        → AreOwned k e.places → AreEntries e.places → truth s (formula_of k e) ≡ is_zero (worth e s) }
{}

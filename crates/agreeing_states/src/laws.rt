//! What is told is so in each situation that agrees with the state.

ghost use Rattle.std.specs.Prelude.{◌≡◌, ℕ, Bool, List, Some};
ghost use Rattle.st_form.specs.Formula.{Formula, Situation, truth};
ghost use Rattle.st_program.specs.declared.residuals.Datum.{Datum};
ghost use Rattle.spl_semantics.specs.Data.{seen_at};
ghost use Rattle.agreeing_states.specs.declared.telling.Known.{Known};
ghost use Rattle.agreeing_states.specs.Agreeing.{Agrees};
ghost use Rattle.agreeing_states.specs.Kleene.{told};

/// A formula that is told to be true, or false, is that in each situation which agrees with the state in all that is known.
pub fn what_is_told_is_so()
    ensures { (k : Known) (store : List Datum) (fronts : List ℕ) (f : Formula) (b : Bool) (t : Situation)
        → Agrees k (seen_at store fronts) t → told k store fronts f ≡ Some b → truth t f ≡ b }
{}

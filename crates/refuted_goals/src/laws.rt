//! The law, the contract of a function that does nothing.

ghost use Rattle.std.specs.Prelude.{ℕ, List};
ghost use Rattle.refuted_goals.specs.Refuted.{Refutes, IsRefuted};

use played_goals::laws::proved_goals_never_fail;

/// A goal that fails on one run of a program doesn't hold on every run of it.
pub fn what_fails_is_refuted()
    ensures { (program proof schedule : List ℕ) → Refutes program proof schedule → IsRefuted program proof }
{
    proved_goals_never_fail();
}

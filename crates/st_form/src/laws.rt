//! Laws on the definitions, as contracts of functions that do nothing.

ghost use Rattle.st_form.specs.Exchange.{CountsBehind};
ghost use Rattle.st_form.specs.Simple.{KeepsTruth};

/// Where the decisions are right in a situation, a simplified formula has the formula's truth value there, under its sign.
pub fn simplification_keeps_truth()
    ensures { KeepsTruth }
{}

/// The atoms that are counted before a change is made are those of the formula that it makes.
pub fn atoms_are_counted_before_the_change()
    ensures { CountsBehind }
{}

//! Laws on the typing rules of expressions, which make no call.
//!
//! The rules are given twice: as the walk over the text with the first fault that it meets, and as the list of all
//! faults, each rule adding the places at which it is broken, with the meaning of what breaks none. The laws tie both.

ghost use Rattle.std.specs.Prelude.{List, ◌≡◌, ℕ, Err};
ghost use Rattle.expression_parser.specs.ExpressionTree.{Expr};
ghost use Rattle.expression_typer.specs.declared.fault.TypeFault.{TypeFault};
ghost use Rattle.expression_typer.specs.Scope.{Known, Names};
ghost use Rattle.expression_typer.specs.Typing.{typed, typed_by};
ghost use Rattle.expression_typer.specs.Rules.{faults_in, faults_by, meaning, meaning_by};
ghost use Rattle.expression_typer.specs.Told.{Told, IsWritten, IsModest};
ghost use Rattle.expression_typer.specs.Placed.{IsPlaced, IsLeast};

/// The walk over an expression gives its meaning exactly where no rule is broken in it, and else the first of the faults.
/// Numerals are those that texts have.
pub fn first_is_told()
    ensures { (s : List Known) (e : Expr) → IsModest e → Told IsWritten (typed s e) (faults_in s e) (meaning s e) }
{}

/// In an expression whose tokens have rising places the walk answers the lowest rule that is broken at the first place.
pub fn least_is_told()
    ensures { (s : List Known) (e : Expr) (from to : ℕ) → IsModest e → IsPlaced e from to
        → (f : TypeFault) → typed s e ≡ Err f → IsLeast f (faults_in s e) }
{}

/// The same of an expression whatever its names stand for, as in proofs, where labels stand for locations.
pub fn first_is_told_by_names()
    ensures { (s : Names) (e : Expr) → IsModest e → Told IsWritten (typed_by s e) (faults_by s e) (meaning_by s e) }
{}

/// The same, whatever the names stand for.
pub fn least_is_told_by_names()
    ensures { (s : Names) (e : Expr) (from to : ℕ) → IsModest e → IsPlaced e from to
        → (f : TypeFault) → typed_by s e ≡ Err f → IsLeast f (faults_by s e) }
{}

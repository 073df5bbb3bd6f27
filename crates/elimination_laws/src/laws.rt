//! The laws of elimination, as contracts of functions that do nothing.

ghost use Rattle.std.specs.Prelude.{◌≡◌, ℕ, ℤ, List};
ghost use Rattle.st_linear.specs.declared.rows.Line.{Line};
ghost use Rattle.elimination_laws.specs.Stages.{ending, contradiction, through, Use};
ghost use Rattle.elimination_laws.specs.Laws.{AreProper, HaveNoRefutation};
ghost use Rattle.farkas_leaf.specs.Lines.{Closes};

/// The picks of a contradiction close the leaf: their multiples of the input lines sum to a negative constant.
pub fn contradictions_close()
    ensures { (lines : List Line) (n : ℕ) (picks : List (ℕ × ℤ)) → AreProper n lines
        → ending lines n ≡ contradiction picks → Closes lines picks }
{}

/// Where all variables are eliminated without a contradiction, there is none: no multiples of the lines by whole
/// numbers, those of rows at least 0, sum to a negative constant, however large the multipliers are.
pub fn no_refutation_is_overlooked()
    ensures { (lines : List Line) (n : ℕ) (uses : List Use) → AreProper n lines
        → ending lines n ≡ through uses → HaveNoRefutation lines }
{}

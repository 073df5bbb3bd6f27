//! What workers find: marks of conditions that are decided valid, and one that isn't, with the verdict on it.

ghost use Rattle.std.specs.Prelude.{◌≡◌, ◌⊎◌, ℕ, List, Option, IfSome, Some, true, length, slice_get};
ghost use Rattle.st_form.specs.declared.conditions.Condition.{Condition};
ghost use Rattle.farkas_check.specs.Problem.{Setting};
ghost use Rattle.discharge.specs.Marked.{AreFindings, IsUndecided};

use linear_prover::Verdict;

/// A condition that isn't decided valid, by its place, and the verdict on it.
#[derive(Drop)]
pub struct Undecided {
    pub place: usize,
    pub verdict: Verdict,
}

/// A mark for each condition, true where it is decided valid; and a condition that isn't, if one was met.
#[derive(Drop)]
pub(crate) struct Findings {
    pub valid: Vec<bool>,
    pub undecided: Option<Undecided>,
}

/// Takes over another worker's marks.
pub(crate) fn take_over(marks: &mut Vec<bool>, others: &[bool])
    requires { length others.now ≡ length marks.old.items }
    ensures as_many { length marks.new.items ≡ length marks.old.items }
    ensures from { (i : ℕ) → slice_get marks.new.items i ≡ Some true → (slice_get marks.old.items i ≡ Some true) ⊎ (slice_get others.now i ≡ Some true) }
{
    for place in 0..others.len() {
        if others[place] {
            marks[place] = true;
        }
    }
}

/// Of two that aren't valid the one that stands first.
fn earlier(one: Option<Undecided>, other: Option<Undecided>) -> Option<Undecided>
    ensures { (k : Setting) (cs : List Condition) → IfSome one (IsUndecided k cs) → IfSome other (IsUndecided k cs) → IfSome result (IsUndecided k cs) }
{
    let Some(one) = one else {
        return other;
    };
    let Some(other) = other else {
        return Some(one);
    };
    if one.place <= other.place {
        return Some(one);
    }
    Some(other)
}

/// What two workers have found.
pub(crate) fn joined(one: Findings, other: Findings) -> Findings
    requires { length other.valid.items ≡ length one.valid.items }
    ensures { (k : Setting) (cs : List Condition) → AreFindings k cs one → AreFindings k cs other → AreFindings k cs result }
{
    let mut valid = one.valid;
    take_over(&mut valid, &other.valid);
    Findings {
        valid,
        undecided: earlier(one.undecided, other.undecided),
    }
}

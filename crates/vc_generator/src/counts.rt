//! How many atoms a condition will have. Counts that pass the largest number of 64 bits stand still there.

ghost use Rattle.std.specs.Prelude.{◌≡◌, ◌+◌, ◌-◌, ◌^◌, map, min};
ghost use Rattle.st_form.specs.Formula.{atoms};
ghost use Rattle.st_form.specs.Plain.{plain};
ghost use Rattle.transition_system.specs.Plain.{plain_mode};
ghost use Rattle.vc_generator.specs.Atoms.{atoms_in, mode_atoms, cases_atoms};
ghost use Rattle.vc_generator.specs.Plain.{plain_case};

use crate::building::Case;
use st_form::Form;
use transition_system::Mode;

/// The atoms of a list of formulas.
pub fn atoms_in_all(forms: &[Form]) -> u64
    ensures { result ≡ min (atoms_in (map plain forms.now)) (2 ^ 64 - 1) }
{
    let mut sum: u64 = 0;
    for form in forms {
        sum = sum.saturating_add(form.atoms());
    }
    sum
}

/// The atoms of two formulas.
pub fn two_atoms(first: &Form, second: &Form) -> u64
    ensures { result ≡ min (atoms (plain first.now) + atoms (plain second.now)) (2 ^ 64 - 1) }
{
    first.atoms().saturating_add(second.atoms())
}

/// The atoms of what is given before a mode.
pub fn given_atoms(mode: &Mode, lemmas: &[Form], before: &Form) -> u64
    ensures { result ≡ min (mode_atoms (plain_mode mode.now) (map plain lemmas.now) (plain before.now)) (2 ^ 64 - 1) }
{
    let step = (mode.at.len() as u64).saturating_add(mode.guard.atoms());
    let here = before.atoms().saturating_add(step);
    atoms_in_all(lemmas).saturating_add(here)
}

/// The atoms of what is shown of cases.
pub fn shown_atoms(mode: &Mode, cases: &[Case]) -> u64
    ensures { result ≡ min (cases_atoms (plain_mode mode.now) (map plain_case cases.now)) (2 ^ 64 - 1) }
{
    let mut sum: u64 = 0;
    for case in cases {
        let behind = case
            .behind
            .atoms_behind(&mode.change)
            .saturating_add(case.falls.len() as u64);
        let whole = case.now.atoms().saturating_add(behind);
        sum = sum.saturating_add(whole);
    }
    sum
}

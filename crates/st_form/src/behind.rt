//! How many atoms a formula would have behind a change, counted before it is made: the change may put the same large formula in
//! many places. Counts that pass the largest number of 64 bits stand still there.

ghost use Rattle.std.specs.Prelude.{◌≡◌, ◌-◌, ◌^◌, map, min};
ghost use Rattle.st_form.specs.Exchange.{truth_for, location_after, atoms_behind, all_behind};
ghost use Rattle.st_form.specs.Formula.{atoms};
ghost use Rattle.st_form.specs.Plain.{plain, plain_list, plain_change};

use crate::formulas::Form;
use crate::replacement::Change;

impl Form {
    /// How many atoms the formula has once it is put before the change, or 2^64 - 1 where there are more.
    #[cycle(behind)]
    #[tactic(auto, using(crate::proofs::Nodes::nodes))]
    pub fn atoms_behind(&self, change: &Change) -> u64
        ensures { result ≡ min (atoms_behind (plain_change change.now) (plain self.now)) (2 ^ 64 - 1) }
    {
        match self {
            Form::True | Form::False => 0,
            Form::Row(_) | Form::Equal(_) => 1,
            Form::BoolVar(v) => truth_atoms(&change.truths, *v),
            Form::At(l) => location_atoms(change, *l),
            Form::Not(f) => f.atoms_behind(change),
            Form::And(fs) => sum_behind(fs, change),
            Form::Or(fs) => sum_behind(fs, change),
        }
    }
}

#[cycle(behind)]
fn sum_behind(fs: &[Form], change: &Change) -> u64
    ensures { result ≡ min (all_behind (plain_change change.now) (plain_list fs.now)) (2 ^ 64 - 1) }
{
    let mut sum: u64 = 0;
    for f in fs {
        sum = sum.saturating_add(f.atoms_behind(change));
    }
    sum
}

fn truth_atoms(truths: &[(u32, Form)], var: u32) -> u64
    ensures { result ≡ min (atoms (truth_for var (map (λ p. (p.0, plain p.1)) truths.now))) (2 ^ 64 - 1) }
{
    for pair in truths {
        if pair.0 == var {
            return pair.1.atoms();
        }
    }
    1
}

fn location_atoms(change: &Change, location: u32) -> u64
    ensures { result ≡ atoms (location_after location (plain_change change.now)) }
{
    if change.enters.contains(&location) || change.leaves.contains(&location) {
        0
    } else {
        1
    }
}

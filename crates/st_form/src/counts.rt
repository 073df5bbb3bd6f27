//! How large a formula is. Counts that pass the largest number of 64 bits stand still there.

ghost use Rattle.std.specs.Prelude.{◌≡◌, ◌-◌, ◌^◌, min};
ghost use Rattle.st_form.specs.Formula.{atoms, atoms_of, weight, weight_of};
ghost use Rattle.st_form.specs.Plain.{plain, plain_list};

use crate::formulas::Form;

impl Form {
    /// How many leaves but `True` and `False` there are, or 2^64 - 1 where there are more.
    #[cycle(atoms)]
    #[tactic(auto, using(crate::proofs::Nodes::nodes))]
    pub fn atoms(&self) -> u64
        ensures { result ≡ min (atoms (plain self.now)) (2 ^ 64 - 1) }
    {
        match self {
            Form::True | Form::False => 0,
            Form::Row(_) | Form::Equal(_) | Form::BoolVar(_) | Form::At(_) => 1,
            Form::Not(f) => f.atoms(),
            Form::And(fs) => sum_of_atoms(fs),
            Form::Or(fs) => sum_of_atoms(fs),
        }
    }

    /// The atoms and the entries of the forms, or 2^64 - 1 where there are more.
    #[cycle(weight)]
    #[tactic(auto, using(crate::proofs::Nodes::nodes))]
    pub fn weight(&self) -> u64
        ensures { result ≡ min (weight (plain self.now)) (2 ^ 64 - 1) }
    {
        match self {
            Form::True | Form::False => 0,
            Form::Row(f) | Form::Equal(f) => 1u64.saturating_add(f.entries().len() as u64),
            Form::BoolVar(_) | Form::At(_) => 1,
            Form::Not(f) => f.weight(),
            Form::And(fs) => sum_of_weights(fs),
            Form::Or(fs) => sum_of_weights(fs),
        }
    }
}

#[cycle(atoms)]
fn sum_of_atoms(fs: &[Form]) -> u64
    ensures { result ≡ min (atoms_of (plain_list fs.now)) (2 ^ 64 - 1) }
{
    let mut sum: u64 = 0;
    for f in fs {
        sum = sum.saturating_add(f.atoms());
    }
    sum
}

#[cycle(weight)]
fn sum_of_weights(fs: &[Form]) -> u64
    ensures { result ≡ min (weight_of (plain_list fs.now)) (2 ^ 64 - 1) }
{
    let mut sum: u64 = 0;
    for f in fs {
        sum = sum.saturating_add(f.weight());
    }
    sum
}

//! Formulas over rows (a linear form is at least 0), equations (it is 0), boolean variables and control locations.

ghost use Rattle.std.specs.Prelude.{◌≡◌, map, IfOk};
ghost use Rattle.st_form.specs.Plain.{plain};

use st_linear::Lin;
use st_memory::Memory;
use std::alloc::Global;

/// A formula without quantifiers.
#[derive(Drop)]
pub enum Form {
    True,
    False,
    /// The form is at least 0.
    Row(Lin),
    /// The form is 0.
    Equal(Lin),
    /// The boolean variable is true.
    BoolVar(u32),
    /// Control is at the location.
    At(u32),
    Not(Box<Form>),
    And(Vec<Form>),
    Or(Vec<Form>),
}

impl Form {
    /// An equal formula.
    #[cycle(copy)]
    #[tactic(auto, using(crate::proofs::Nodes::nodes))]
    pub fn copy(&self, alloc: Global) -> Result<Form, Memory>
        ensures { IfOk result (λ f. plain f ≡ plain self.now) }
    {
        match self {
            Form::True => Ok(Form::True),
            Form::False => Ok(Form::False),
            Form::Row(f) => Ok(Form::Row(f.copy(alloc)?)),
            Form::Equal(f) => Ok(Form::Equal(f.copy(alloc)?)),
            Form::BoolVar(v) => Ok(Form::BoolVar(*v)),
            Form::At(l) => Ok(Form::At(*l)),
            Form::Not(f) => Ok(Form::Not(Box::new(alloc, f.copy(alloc)?)?)),
            Form::And(fs) => Ok(Form::And(copy_all(alloc, fs)?)),
            Form::Or(fs) => Ok(Form::Or(copy_all(alloc, fs)?)),
        }
    }
}

/// Equal formulas.
#[cycle(copy)]
pub fn copy_all(alloc: Global, fs: &[Form]) -> Result<Vec<Form>, Memory>
    ensures { IfOk result (λ v. map plain v.items ≡ map plain fs.now) }
{
    let mut out = Vec::with_capacity(alloc, fs.len())?;
    for f in fs {
        out.push(f.copy(alloc)?)?;
    }
    Ok(out)
}

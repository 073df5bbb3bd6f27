//! Formulas before a step, from formulas behind it: assigned variables are replaced by their right sides, all at once, and being at
//! a location that the step leaves or enters is decided (the weakest precondition of an assignment: Hoare, An axiomatic basis for
//! computer programming, 1969; Manna and Pnueli, Temporal Verification of Reactive Systems: Safety, 1995, section 1.3).

ghost use Rattle.std.specs.Prelude.{◌≡◌, map, IfOk};
ghost use Rattle.st_form.specs.Formula.{Situation, truth};
ghost use Rattle.st_form.specs.Plain.{plain, plain_list, plain_change};
ghost use Rattle.st_form.specs.Exchange.{before, exchanged, all_exchanged, truth_for, location_after};
ghost use Rattle.st_linear.specs.Answers.{Gives};

use crate::formulas::Form;
use st_linear::{Lin, LinFault};
use st_memory::Memory;
use std::alloc::Global;

/// What is put in the place of variables, and which locations are left and entered. A location in both lists is entered.
#[derive(Drop)]
pub struct Change {
    pub numbers: Vec<(u32, Lin)>,
    pub truths: Vec<(u32, Form)>,
    pub leaves: Vec<u32>,
    pub enters: Vec<u32>,
}

impl Form {
    /// The formula with its variables replaced at once and its locations moved: where the same variable is listed twice, the first
    /// entry counts, and a location that is entered is not left. `TooLarge` exactly where a linear form in it has no replacement.
    pub fn replace(&self, alloc: Global, change: &Change) -> Result<Form, LinFault>
        ensures exact { Gives plain result (exchanged (plain_change change.now) (plain self.now)) }
        ensures truth { IfOk result (λ f. (s : Situation)
            → truth s (plain f) ≡ truth (before s (plain_change change.now)) (plain self.now)) }
    {
        self.exchange(alloc, change)
    }

    #[cycle(replace)]
    #[tactic(auto, using(crate::proofs::Nodes::nodes))]
    fn exchange(&self, alloc: Global, change: &Change) -> Result<Form, LinFault>
        ensures { Gives plain result (exchanged (plain_change change.now) (plain self.now)) }
    {
        match self {
            Form::True => Ok(Form::True),
            Form::False => Ok(Form::False),
            Form::Row(f) => Ok(Form::Row(f.replace(alloc, change.numbers.as_slice())?)),
            Form::Equal(f) => Ok(Form::Equal(f.replace(alloc, change.numbers.as_slice())?)),
            Form::BoolVar(v) => Ok(truth_for(alloc, change.truths.as_slice(), *v)?),
            Form::At(l) => Ok(location_after(change, *l)),
            Form::Not(f) => Ok(Form::Not(Box::new(alloc, f.exchange(alloc, change)?)?)),
            Form::And(fs) => Ok(Form::And(replace_all(alloc, change, fs)?)),
            Form::Or(fs) => Ok(Form::Or(replace_all(alloc, change, fs)?)),
        }
    }
}

#[cycle(replace)]
fn replace_all(alloc: Global, change: &Change, fs: &[Form]) -> Result<Vec<Form>, LinFault>
    ensures { Gives (λ v. plain_list v.items) result (all_exchanged (plain_change change.now) (plain_list fs.now)) }
{
    let mut out = Vec::with_capacity(alloc, fs.len())?;
    for f in fs {
        let after = f.exchange(alloc, change)?;
        out.push(after)?;
    }
    Ok(out)
}

/// The formula that is listed for a truth variable, or the variable.
fn truth_for(alloc: Global, truths: &[(u32, Form)], var: u32) -> Result<Form, Memory>
    ensures { IfOk result (λ f. plain f ≡ truth_for var (map (λ p. (p.0, plain p.1)) truths.now)) }
{
    for pair in truths {
        if pair.0 == var {
            return pair.1.copy(alloc);
        }
    }
    Ok(Form::BoolVar(var))
}

/// Being at a location behind the change.
fn location_after(change: &Change, location: u32) -> Form
    ensures { plain result ≡ location_after location (plain_change change.now) }
{
    if change.enters.contains(&location) {
        Form::True
    } else if change.leaves.contains(&location) {
        Form::False
    } else {
        Form::At(location)
    }
}

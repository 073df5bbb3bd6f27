//! How large a formula is over the store before a group, told without making it. A truth variable may stand in very many places
//! of a text, and a formula of thousands of atoms may have been assigned to it; so only its linear forms are composed, one at a
//! time, and a truth variable counts as much as the value that it has.

ghost use Rattle.std.specs.Prelude.{◌≡◌, length};
ghost use Rattle.st_form.specs.Plain.{plain, plain_list};
ghost use Rattle.expression_typer.specs.Answers.{Gives};
ghost use Rattle.spl_typer.specs.Measured.{no_size, leaf, row_size, both, size_for, sized, all_sized};

use crate::numbers::small_or;
use expression_typer::TypeFault;
use st_form::{Form, Lin};
use std::alloc::Global;

/// The atoms of a formula, and its weight: atoms and the entries of forms. Sums stand still at the largest number of 64 bits.
#[derive(Clone, Copy)]
pub struct Size {
    pub atoms: u64,
    pub weight: u64,
}

fn no_size() -> Size
    ensures { result ≡ no_size }
{
    Size {
        atoms: 0,
        weight: 0,
    }
}

fn leaf() -> Size
    ensures { result ≡ leaf }
{
    Size {
        atoms: 1,
        weight: 1,
    }
}

fn row_size(form: &Lin) -> Size
    ensures { result ≡ row_size form.now }
{
    Size {
        atoms: 1,
        weight: 1u64.saturating_add(form.entries().len() as u64),
    }
}

fn both(first: Size, second: Size) -> Size
    ensures { result ≡ both first second }
{
    Size {
        atoms: first.atoms.saturating_add(second.atoms),
        weight: first.weight.saturating_add(second.weight),
    }
}

/// The size of what stands for a truth variable.
fn size_for(truths: &[(u32, Size)], var: u32) -> Size
    ensures { result ≡ size_for var truths.now }
{
    for pair in truths {
        if pair.0 == var {
            return pair.1;
        }
    }
    leaf()
}

/// How large the formula is with these numbers in the place of integer variables, and truth values of these sizes.
#[cycle(sized)]
#[tactic(auto, using(st_form::proofs::Nodes::nodes))]
pub fn sized(
    alloc: Global,
    at: u64,
    numbers: &[(u32, Lin)],
    truths: &[(u32, Size)],
    form: &Form,
) -> Result<Size, TypeFault>
    ensures { Gives (λ s. s) result (sized at numbers.now truths.now (plain form.now)) }
{
    match form {
        Form::True | Form::False => Ok(no_size()),
        Form::Row(f) | Form::Equal(f) => {
            let composed = small_or(at, f.replace(alloc, numbers))?;
            Ok(row_size(&composed))
        }
        Form::BoolVar(v) => Ok(size_for(truths, *v)),
        Form::At(_) => Ok(leaf()),
        Form::Not(f) => sized(alloc, at, numbers, truths, f),
        Form::And(fs) => all_sized(alloc, at, numbers, truths, fs),
        Form::Or(fs) => all_sized(alloc, at, numbers, truths, fs),
    }
}

/// How large the formulas are together.
#[cycle(sized)]
fn all_sized(
    alloc: Global,
    at: u64,
    numbers: &[(u32, Lin)],
    truths: &[(u32, Size)],
    forms: &[Form],
) -> Result<Size, TypeFault>
    ensures { Gives (λ s. s) result (all_sized at numbers.now truths.now no_size (plain_list forms.now)) }
{
    let mut sum = no_size();
    for form in forms {
        let size = sized(alloc, at, numbers, truths, form)?;
        sum = both(sum, size);
    }
    Ok(sum)
}

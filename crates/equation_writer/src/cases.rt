//! The cases of a formula: for each component one of its classes, the first component weighing most. They are made from the last
//! component to the first, so each step at least doubles what it goes over.

ghost use Rattle.std.specs.Prelude.{◌≡◌, ◌++◌, ◌∷◌, [], true, IfOk, OnOk, IsTrue, map, filter};
ghost use Rattle.std.specs.Ordering.{int_eq};
ghost use Rattle.st_linear.specs.Linear.{is_small};
ghost use Rattle.st_form.specs.Formula.{at, negation};
ghost use Rattle.st_form.specs.Plain.{plain, plain_list};
ghost use Rattle.st_form.specs.Simple.{closed};
ghost use Rattle.equation_forms.specs.Formulas.{classes, whereabouts, choices};
ghost use Rattle.equation_writer.specs.Plain.{plain_terms, plain_case};
ghost use Rattle.equation_writer.specs.Sizes.{are_few};
ghost use Rattle.equation_writer.specs.Sums.{AreModest, AreSmall, IsGroup, AreGroups, with_class, with_classes};

use crate::classes::{Terms, classes};
use crate::sums::sum;
use st_form::{Form, copy_all};
use st_memory::Memory;
use std::alloc::Global;

/// Where control is, by conjuncts, and what the components add there.
#[derive(Drop)]
pub(crate) struct Case {
    pub(crate) parts: Vec<Form>,
    pub(crate) sum: i128,
}

/// The conjunction, or the disjunction, of these parts: one part is itself, and none are `True`, or `False`.
#[tactic(auto, using(st_form::proofs::Nodes::nodes))]
pub(crate) fn closed(mut parts: Vec<Form>, all: bool) -> Form
    ensures { plain result ≡ closed all (plain_list parts.items) }
{
    if parts.len() < 2 {
        return match parts.pop() {
            Some(only) => only,
            None => { if all { Form::True } else { Form::False } }
        };
    }
    if all {
        Form::And(parts)
    } else {
        Form::Or(parts)
    }
}

/// Says that control is at none of the locations.
#[tactic(auto, using(st_form::proofs::Nodes::nodes))]
fn push_absences(alloc: Global, terms: &[(u32, i128)], out: &mut Vec<Form>) -> Result<(), Memory>
    ensures { OnOk result (map plain out.new.items ≡ map plain out.old.items ++ map (λ t. negation (at t.0)) terms.now) }
{
    for t in terms {
        out.push(Form::Not(Box::new(alloc, Form::At(t.0))?))?;
    }
    Ok(())
}

/// The locations with a coefficient, as formulas.
fn locations_with(
    alloc: Global,
    terms: &[(u32, i128)],
    coefficient: &i128,
) -> Result<Vec<Form>, Memory>
    ensures { IfOk result (λ v. map plain v.items ≡ map (λ t. at t.0) (filter (λ t. int_eq t.1 coefficient.now) terms.now)) }
{
    let mut out = Vec::new(alloc);
    for t in terms {
        if t.1 != *coefficient {
            continue;
        }
        out.push(Form::At(t.0))?;
    }
    Ok(out)
}

/// Says that control is in a class.
fn push_whereabouts(
    alloc: Global,
    terms: &[(u32, i128)],
    class: &i128,
    out: &mut Vec<Form>,
) -> Result<(), Memory>
    ensures { OnOk result (map plain out.new.items ≡ map plain out.old.items ++ whereabouts terms.now class.now) }
{
    if *class == 0 {
        return push_absences(alloc, terms, out);
    }
    out.push(closed(locations_with(alloc, terms, class)?, false))?;
    Ok(())
}

/// A case of the components behind, with a component in one of its classes.
fn with_class(
    alloc: Global,
    terms: &[(u32, i128)],
    class: &i128,
    case: &Case,
) -> Result<Case, Memory>
    requires class { IsTrue (is_small class.now) }
    requires modest { AreModest (plain_case case.now ∷ []) }
    ensures { IfOk result (λ c. plain_case c ≡ with_class terms.now class.now (plain_case case.now)) }
{
    let mut parts = Vec::new(alloc);
    push_whereabouts(alloc, terms, class, &mut parts)?;
    let mut rest = copy_all(alloc, &case.parts)?;
    parts.append(&mut rest)?;
    Ok(Case {
        parts,
        sum: sum(class, &case.sum),
    })
}

/// Appends all cases of the components behind, with a component in one of its classes.
fn push_with_class(
    alloc: Global,
    terms: &[(u32, i128)],
    class: &i128,
    cases: &[Case],
    out: &mut Vec<Case>,
) -> Result<(), Memory>
    requires class { IsTrue (is_small class.now) }
    requires modest { AreModest (map plain_case cases.now) }
    ensures { OnOk result (map plain_case out.new.items
        ≡ map plain_case out.old.items ++ map (with_class terms.now class.now) (map plain_case cases.now)) }
{
    for case in cases {
        out.push(with_class(alloc, terms, class, case)?)?;
    }
    Ok(())
}

/// The same with the component in each of its classes.
fn with_classes(
    alloc: Global,
    terms: &[(u32, i128)],
    classes: &[i128],
    cases: &[Case],
) -> Result<Vec<Case>, Memory>
    requires classes { AreSmall classes.now }
    requires modest { AreModest (map plain_case cases.now) }
    ensures { IfOk result (λ v. map plain_case v.items ≡ with_classes terms.now classes.now (map plain_case cases.now)) }
{
    let mut out = Vec::new(alloc);
    for class in classes {
        push_with_class(alloc, terms, class, cases, &mut out)?;
    }
    Ok(out)
}

/// The cases of the components behind, with a further component in front.
fn with_group(alloc: Global, terms: &[(u32, i128)], cases: &[Case]) -> Result<Vec<Case>, Memory>
    requires group { IsGroup terms.now }
    requires modest { AreModest (map plain_case cases.now) }
    ensures { IfOk result (λ v. map plain_case v.items ≡ with_classes terms.now (classes terms.now) (map plain_case cases.now)) }
{
    let classes = classes(alloc, terms)?;
    with_classes(alloc, terms, &classes, cases)
}

/// All cases.
pub(crate) fn cases(alloc: Global, groups: &[Terms]) -> Result<Vec<Case>, Memory>
    requires few { are_few (plain_terms groups.now) ≡ true }
    requires proper { AreGroups (plain_terms groups.now) }
    ensures { IfOk result (λ v. map plain_case v.items ≡ choices (plain_terms groups.now)) }
{
    let mut out = Vec::new(alloc);
    out.push(Case {
        parts: Vec::new(alloc),
        sum: 0,
    })?;
    let mut left = groups.len();
    while left > 0 {
        left -= 1;
        out = with_group(alloc, &groups[left], &out)?;
    }
    Ok(out)
}

//! Problems of the search: decisions of components and boolean variables, and conjuncts under them.
//!
//! A problem lends its conjuncts to those that it is divided into. Where a decision is added, only those conjuncts are
//! simplified again that have a decided literal; simplification leaves the others as they are.

ghost use Rattle.std.specs.Prelude.{◌≡◌, IfOk, Some};
ghost use Rattle.st_form.specs.Plain.{plain, plain_list};
ghost use Rattle.st_form.specs.Simple.{append, opened};
ghost use Rattle.st_form.specs.Formula.{more, none};
ghost use Rattle.farkas_check.specs.Problem.{with_conjuncts};
ghost use Rattle.farkas_check.specs.PlainProblem.{plain_posed};
ghost use Rattle.linear_prover.specs.Plain.{plain_conjunct, plain_each, plain_node};

use control_states::Alternative;
use farkas_check::problems::Posed;
use st_form::Form;
use st_memory::Memory;
use std::alloc::Global;

/// A conjunct, lent by the problem that was divided or made by simplification.
#[derive(Drop)]
pub enum Conjunct<'a> {
    Kept(&'a Form),
    Made(Box<Form>),
}

/// What is decided of components and of boolean variables, and the conjuncts, or None where the problem is false.
#[derive(Drop)]
pub struct Node<'a> {
    pub cases: Vec<Option<Alternative>>,
    pub truths: Vec<Option<bool>>,
    pub conjuncts: Option<Vec<Conjunct<'a>>>,
}

/// The formula of a conjunct.
pub fn form<'b, 'x>(conjunct: &'b Conjunct<'x>) -> &'b Form
    ensures { plain result.now ≡ plain_conjunct conjunct.now }
{
    match conjunct {
        Conjunct::Kept(f) => &**f,
        Conjunct::Made(f) => &**f,
    }
}

/// Conjuncts, and behind them these formulas, lent.
pub fn lend_forms<'b>(out: Vec<Conjunct<'b>>, fs: &'b [Form]) -> Result<Vec<Conjunct<'b>>, Memory>
    ensures { IfOk result (λ v. plain_each v.items ≡ append (plain_each out.entry.items) (plain_list fs.now)) }
{
    let mut all = out;
    for f in fs {
        all.push(Conjunct::Kept(f))?;
    }
    Ok(all)
}

/// Conjuncts, and behind them those of a problem, lent.
pub fn lend<'b, 'x>(
    out: Vec<Conjunct<'b>>,
    fs: &'b [Conjunct<'x>],
) -> Result<Vec<Conjunct<'b>>, Memory>
    ensures { IfOk result (λ v. plain_each v.items ≡ append (plain_each out.entry.items) (plain_each fs.now)) }
{
    let mut all = out;
    for f in fs {
        let lent = form(f);
        all.push(Conjunct::Kept(lent))?;
    }
    Ok(all)
}

fn lend_one<'b>(out: Vec<Conjunct<'b>>, f: &'b Form) -> Result<Vec<Conjunct<'b>>, Memory>
    ensures { IfOk result (λ v. plain_each v.items ≡ append (plain_each out.entry.items) (more (plain f.now) none)) }
{
    let mut all = out;
    all.push(Conjunct::Kept(f))?;
    Ok(all)
}

/// Conjuncts, and behind them the parts of a conjunction, or the formula alone, lent.
#[tactic(auto, using(st_form::proofs::Nodes::nodes))]
pub fn lend_opened<'b>(out: Vec<Conjunct<'b>>, f: &'b Form) -> Result<Vec<Conjunct<'b>>, Memory>
    ensures { IfOk result (λ v. plain_each v.items ≡ append (plain_each out.entry.items) (opened (plain f.now))) }
{
    match f {
        Form::True => lend_one(out, f),
        Form::False => lend_one(out, f),
        Form::Row(_) => lend_one(out, f),
        Form::Equal(_) => lend_one(out, f),
        Form::BoolVar(_) => lend_one(out, f),
        Form::At(_) => lend_one(out, f),
        Form::Not(_) => lend_one(out, f),
        Form::And(gs) => lend_forms(out, gs.as_slice()),
        Form::Or(_) => lend_one(out, f),
    }
}

/// The same decisions with other conjuncts.
pub fn with_conjuncts<'b>(
    alloc: Global,
    node: &Node,
    conjuncts: Vec<Conjunct<'b>>,
) -> Result<Node<'b>, Memory>
    ensures { IfOk result (λ n. plain_node n ≡ with_conjuncts (plain_node node.now) (Some (plain_each conjuncts.entry.items))) }
{
    let cases = Vec::from_slice(alloc, node.cases.as_slice())?;
    let truths = Vec::from_slice(alloc, node.truths.as_slice())?;
    Ok(Node {
        cases,
        truths,
        conjuncts: Some(conjuncts),
    })
}

/// A condition's problem, with its conjuncts lent.
pub fn node_of<'b>(alloc: Global, problem: &'b Posed) -> Result<Node<'b>, Memory>
    ensures { IfOk result (λ n. plain_node n ≡ plain_posed problem.now) }
{
    let cases = Vec::from_slice(alloc, problem.cases.as_slice())?;
    let truths = Vec::from_slice(alloc, problem.truths.as_slice())?;
    let conjuncts = match &problem.conjuncts {
        None => None,
        Some(fs) => Some(lend_forms(Vec::new(alloc), fs.as_slice())?),
    };
    Ok(Node {
        cases,
        truths,
        conjuncts,
    })
}

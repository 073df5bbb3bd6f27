//! Simplification. Signs move inwards until they stand before literals (the negation normal form), literals are simplified, and
//! conjunctions and disjunctions take in parts of their own kind. Where the truth value of a variable, or of being at a location, is
//! decided, it stands in the literal's place.

ghost use Rattle.std.specs.Prelude.{◌≡◌, IfOk, true};
ghost use Rattle.st_form.specs.Formula.{Situation, truth};
ghost use Rattle.st_form.specs.Plain.{plain, plain_list, plain_conjuncts};
ghost use Rattle.st_form.specs.Simple.{IsModest, AreModest, simple, simples, gathered, joined_parts, tabled, nothing};

use crate::formulas::Form;
use crate::literals::{constant, known, literal, signed_equal, signed_row};
use crate::parts::{closed, take_part};
use st_memory::Memory;
use std::alloc::Global;

impl Form {
    /// The simplified formula with nothing decided, which is true in the same states.
    pub fn normal(&self, alloc: Global) -> Result<Form, Memory>
        requires { IsModest (plain self.now) }
        ensures exact { IfOk result (λ f. plain f ≡ simple nothing (plain self.now) true) }
        ensures truth { IfOk result (λ f. (s : Situation) → truth s (plain f) ≡ truth s (plain self.now)) }
    {
        let none: [Option<bool>; 0] = [];
        self.simplified(alloc, &none, &none, true)
    }

    /// The simplified formula under a sign, where some truth values of variables, and of being at locations, are decided.
    #[cycle(simple)]
    #[tactic(auto, using(crate::proofs::Nodes::nodes))]
    pub fn simplified(
        &self,
        alloc: Global,
        truths: &[Option<bool>],
        places: &[Option<bool>],
        plus: bool,
    ) -> Result<Form, Memory>
        requires { IsModest (plain self.now) }
        ensures { IfOk result (λ f. plain f ≡ simple (tabled truths.now places.now) (plain self.now) plus) }
    {
        match self {
            Form::True => Ok(constant(plus)),
            Form::False => Ok(constant(!plus)),
            Form::Row(f) => signed_row(alloc, f, plus),
            Form::Equal(f) => signed_equal(alloc, f, plus),
            Form::BoolVar(v) => literal(alloc, Form::BoolVar(*v), known(truths, *v), plus),
            Form::At(l) => literal(alloc, Form::At(*l), known(places, *l), plus),
            Form::Not(f) => f.simplified(alloc, truths, places, !plus),
            Form::And(fs) => simple_all(alloc, fs, truths, places, plus, plus),
            Form::Or(fs) => simple_all(alloc, fs, truths, places, plus, !plus),
        }
    }
}

/// The conjunction (`all`) or disjunction of the simplified parts.
#[cycle(simple)]
fn simple_all(
    alloc: Global,
    fs: &[Form],
    truths: &[Option<bool>],
    places: &[Option<bool>],
    plus: bool,
    all: bool,
) -> Result<Form, Memory>
    requires { AreModest (plain_list fs.now) }
    ensures { IfOk result (λ g. plain g ≡ joined_parts all (gathered all (simples (tabled truths.now places.now) (plain_list fs.now) plus))) }
{
    let mut out = Vec::new(alloc);
    for f in fs {
        let part = f.simplified(alloc, truths, places, plus)?;
        if !take_part(&mut out, all, part)? {
            return Ok(constant(!all));
        }
    }
    Ok(closed(out, all))
}

/// The simplified conjuncts, joined, or None where one of them is false.
pub fn simple_conjuncts(
    alloc: Global,
    fs: &[Form],
    truths: &[Option<bool>],
    places: &[Option<bool>],
) -> Result<Option<Vec<Form>>, Memory>
    requires { AreModest (plain_list fs.now) }
    ensures { IfOk result (λ o. plain_conjuncts o ≡ gathered true (simples (tabled truths.now places.now) (plain_list fs.now) true)) }
{
    let mut out = Vec::new(alloc);
    for f in fs {
        let part = f.simplified(alloc, truths, places, true)?;
        if !take_part(&mut out, true, part)? {
            return Ok(None);
        }
    }
    Ok(Some(out))
}

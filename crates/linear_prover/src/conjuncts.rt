//! What stands first among conjuncts, and their lines.

ghost use Rattle.std.specs.Prelude.{◌≡◌, ◌<◌, ◌+◌, IfOk, IfSome, length, map, take, drop, []};
ghost use Rattle.std.specs.Option.{option_map};
ghost use Rattle.farkas_leaf.specs.Lent.{lent_line};
ghost use Rattle.form_table.specs.Lent.{lines_in};
ghost use Rattle.st_form.specs.Plain.{plain, plain_list};
ghost use Rattle.st_form.specs.Formula.{none};
ghost use Rattle.farkas_check.specs.Problem.{in_place, split_from, lines_of, lines_with};
ghost use Rattle.search_laws.specs.Moves.{first_place_of, first_truth_of};
ghost use Rattle.linear_prover.specs.Plain.{plain_each};

use crate::literals::{first_place, first_truth};
use crate::problems::{Conjunct, form};
use farkas_check::splits::disjuncts;
use farkas_leaf::LentLine;
use st_form::Form;
use st_memory::Memory;
use std::alloc::Global;

/// The first location, from left to right.
pub fn first_place_among(fs: &[Conjunct]) -> Option<u32>
    ensures { result ≡ first_place_of (plain_each fs.now) }
{
    for f in fs {
        if let Some(l) = first_place(form(f)) {
            return Some(l);
        }
    }
    None
}

/// The first boolean variable, from left to right.
pub fn first_truth_among(fs: &[Conjunct]) -> Option<u32>
    ensures { result ≡ first_truth_of (plain_each fs.now) }
{
    for f in fs {
        if let Some(v) = first_truth(form(f)) {
            return Some(v);
        }
    }
    None
}

/// The place of the first disjunction, and its disjuncts.
pub fn first_disjunction<'b, 'x>(fs: &'b [Conjunct<'x>]) -> Option<(usize, &'b [Form])>
    ensures found { option_map (λ p. in_place (plain_each (take p.0 fs.now)) (plain_list p.1.now) (plain_each (drop (p.0 + 1) fs.now))) result
        ≡ split_from none 0 (plain_each fs.now) }
    ensures within { IfSome result (λ p. p.0 < length fs.now) }
{
    for (place, f) in fs.iter().enumerate() {
        if let Some(parts) = disjuncts(form(f)) {
            return Some((place, parts));
        }
    }
    None
}

/// The line that a formula is, if it is one, lent.
#[tactic(auto, using(st_form::proofs::Nodes::nodes))]
fn line_of(f: &Form) -> Option<LentLine<'_>>
    ensures { lines_in result ≡ lines_with (plain f.now) [] }
{
    match f {
        Form::True => None,
        Form::False => None,
        Form::Row(form) => Some(LentLine { form, equal: false }),
        Form::Equal(form) => Some(LentLine { form, equal: true }),
        Form::BoolVar(_) => None,
        Form::At(_) => None,
        Form::Not(_) => None,
        Form::And(_) => None,
        Form::Or(_) => None,
    }
}

/// The lines of conjuncts, lent.
pub fn lines_of<'b, 'x>(alloc: Global, fs: &'b [Conjunct<'x>]) -> Result<Vec<LentLine<'b>>, Memory>
    ensures { IfOk result (λ v. map lent_line v.items ≡ lines_of (plain_each fs.now)) }
{
    let mut out = Vec::with_capacity(alloc, fs.len())?;
    for f in fs {
        if let Some(line) = line_of(form(f)) {
            out.push(line)?;
        }
    }
    Ok(out)
}

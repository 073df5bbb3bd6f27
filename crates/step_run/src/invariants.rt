//! The invariances that are found for a program, as a proof text.
//!
//! Each equation that `find` gives is tried behind the text that was kept so far, and kept where the text with it is accepted.

ghost use Rattle.std.specs.Prelude.{◌≡◌, ℕ, ◌++◌, IfOk, OnOk};
ghost use Rattle.std.specs.Option.{option_map};
ghost use Rattle.linear_invariants.specs.Plain.{plain_equations};
ghost use Rattle.equation_writer.specs.Proper.{AreProper};
ghost use Rattle.vc_generator.specs.Plain.{plain_list};
ghost use Rattle.step_report.specs.Names.{line};
ghost use Rattle.step_plan.specs.Outcome.{ended_view};
ghost use Rattle.shared_search.specs.Books.{Knows};
ghost use Rattle.step_run.specs.Conditions.{setting_of};
ghost use Rattle.step_run.specs.Source.{IsSpelled};
ghost use Rattle.step_run.specs.Views.{source_view};
ghost use Rattle.step_run.specs.Invariants.{entry, invariants_text, invariants_of};
ghost use Rattle.step_run.specs.Growth.{IsSubject, IsKept, IsChosen};

use crate::acceptance::{Kept, Subject, judged};
use crate::reports::{shown, variables_of};
use crate::source::Source;
use control_facts::components;
use equation_writer::{push_left_out, sentence};
use linear_invariants::{Equation, FindFault, find};
use linear_prover::Book;
use spl_translation::translate;
use st_memory::Memory;
use std::alloc::Global;
use step_plan::{End, Ended, end};
use step_report::push_text;
use vc_generator::Conditions;

/// A book for the conditions of a program.
fn book_of(alloc: Global, subject: &Subject) -> Result<Book, Memory>
    requires { IsSubject subject.now }
    ensures { IfOk result (λ b. Knows (setting_of (source_view subject.now.source)) b) }
{
    let variables = variables_of(&subject.source.program);
    Book::new(alloc, &subject.components, variables)
}

/// The sentence of an equation, where the text with it is accepted. Then it is kept, but for the text itself.
fn chosen(
    alloc: Global,
    book: &mut Book,
    subject: &Subject,
    sentence: Option<Vec<u8>>,
    kept: &mut Kept,
) -> Result<Option<Vec<u8>>, Memory>
    requires subject { IsSubject subject.now }
    requires knows { Knows (setting_of (source_view subject.now.source)) book.old }
    requires accepted { IsKept (source_view subject.now.source) kept.old.text.items kept.old.steps (plain_list kept.old.conditions) }
    ensures knows { Knows (setting_of (source_view subject.now.source)) book.new }
    ensures text { kept.new.text.items ≡ kept.old.text.items }
    ensures chosen { IfOk result (λ o. (n : ℕ) → IsChosen (source_view subject.now.source) kept.old.text.items n (option_map (λ v. v.items) sentence)
        kept.new.steps (plain_list kept.new.conditions) (option_map (λ v. v.items) o)) }
{
    match sentence {
        None => Ok(None),
        Some(sentence) => {
            if judged(alloc, book, subject, kept, &sentence)? {
                Ok(Some(sentence))
            } else {
                Ok(None)
            }
        }
    }
}

/// Appends the sentence of an equation where the text with it is accepted, and else a comment in its place.
fn enter(
    alloc: Global,
    book: &mut Book,
    subject: &Subject,
    number: u64,
    sentence: Option<Vec<u8>>,
    kept: &mut Kept,
) -> Result<(), Memory>
    requires subject { IsSubject subject.now }
    requires knows { Knows (setting_of (source_view subject.now.source)) book.old }
    requires accepted { IsKept (source_view subject.now.source) kept.old.text.items kept.old.steps (plain_list kept.old.conditions) }
    ensures knows { Knows (setting_of (source_view subject.now.source)) book.new }
    ensures text { OnOk result (kept.new.text.items ≡ kept.old.text.items ++ line (entry (source_view subject.now.source) kept.old.text.items number (option_map (λ v. v.items) sentence))) }
    ensures accepted { OnOk result (IsKept (source_view subject.now.source) kept.new.text.items kept.new.steps (plain_list kept.new.conditions)) }
{
    match chosen(alloc, book, subject, sentence, kept)? {
        Some(sentence) => {
            push_text(&mut kept.text, &sentence)?;
            push_text(&mut kept.text, b"\n")
        }
        None => {
            push_left_out(&mut kept.text, number)?;
            push_text(&mut kept.text, b"\n")
        }
    }
}

/// The text of all equations.
fn entered(alloc: Global, subject: &Subject, equations: &[Equation]) -> Result<Vec<u8>, Memory>
    requires subject { IsSubject subject.now }
    requires proper { AreProper (plain_equations equations.now) }
    ensures { IfOk result (λ v. v.items ≡ invariants_text (source_view subject.now.source) (plain_equations equations.now)) }
{
    let mut book = book_of(alloc, subject)?;
    let mut kept = Kept {
        text: Vec::new(alloc),
        steps: 0,
        conditions: Conditions::new(alloc),
    };
    let names = &subject.source.names;
    let variables = variables_of(&subject.source.program).len() as u32;
    let mut number = 0u64;
    for equation in equations {
        number += 1;
        let sentence = sentence(
            alloc,
            &subject.components,
            names,
            variables,
            number,
            equation,
        )?;
        enter(alloc, &mut book, subject, number, sentence, &mut kept)?;
    }
    Ok(kept.text)
}

/// The invariances that are found for a program.
pub fn invariants(alloc: Global, source: Source) -> Result<Ended, Memory>
    requires { IsSpelled (source_view source) }
    ensures { IfOk result (λ e. ended_view e ≡ invariants_of (source_view source)) }
{
    let fts = translate(alloc, &source.program)?;
    let components = components(alloc, &source.program)?;
    let equations = match find(alloc, &fts) {
        Ok(equations) => equations,
        Err(FindFault::Wide) => return end(alloc, End::WideInvariants),
        Err(FindFault::Memory) => return Err(Memory),
    };
    let subject = Subject {
        source,
        fts,
        components,
    };
    let text = entered(alloc, &subject, &equations)?;
    Ok(shown(text))
}

//! Whether a text of invariances is accepted: it spells a script whose conditions pass no limit and are decided valid.
//!
//! The text is read again with each sentence, which is at most once for each variable; but of the conditions only those of the
//! last step are made and decided, since the others are those of the text before it. One book serves all texts of a program, and
//! no certificate is kept.

ghost use Rattle.std.specs.Prelude.{◌≡◌, ◌<◌, ◌≤◌, ◌^◌, ◌++◌, true, drop, take, length, map, IfOk};
ghost use Rattle.st_form.specs.Shared.{plain_condition};
ghost use Rattle.farkas_check.specs.PlainProblem.{setting};
ghost use Rattle.search_laws.specs.Searchable.{AreSearchable};
ghost use Rattle.shared_search.specs.Books.{Knows};
ghost use Rattle.temporal_goals.specs.Plain.{plain_script};
ghost use Rattle.vc_generator.specs.Plain.{plain_list};
ghost use Rattle.vc_generator.specs.Refusing.{Begins};
ghost use Rattle.step_run.specs.Views.{source_view};
ghost use Rattle.step_run.specs.Conditions.{setting_of};
ghost use Rattle.step_run.specs.Invariants.{are_decided};
ghost use Rattle.step_run.specs.Posing.{IsScript};
ghost use Rattle.step_run.specs.Growth.{IsSubject, IsKept, IsScriptIn, AreAccepted, AreListed, AreTaken, AreTried, Judges};

use crate::reports::variables_of;
use crate::source::Source;
use control_states::Components;
use linear_prover::{Book, unless_valid};
use obligations::{ObligationFault, append_conditions};
use proof_script::laws::{scripts_are_over, scripts_are_proofs};
use proof_script::{ScriptFault, read_script};
use script_bounds::laws::over_is_written;
use st_form::{Condition, Variable};
use st_memory::Memory;
use std::alloc::Global;
use step_report::push_text;
use temporal_goals::Script;
use transition_system::Fts;
use vc_generator::{Conditions, take_back};

/// A program, its system and its components.
#[derive(Drop)]
pub struct Subject {
    pub source: Source,
    pub fts: Fts,
    pub components: Components,
}

/// The text of invariances that was kept so far, and of its script the number of steps and their conditions.
#[derive(Drop)]
pub struct Kept {
    pub text: Vec<u8>,
    pub steps: usize,
    pub conditions: Conditions,
}

/// The script that a text spells.
fn script_in(alloc: Global, subject: &Subject, text: &[u8]) -> Result<Option<Script>, Memory>
    requires { IsSubject subject.now }
    ensures { IfOk result (λ o. IsScriptIn (source_view subject.now.source) text.now o) }
{
    // This text is made, and may be longer than any file. `read_script` takes none of 2^32 bytes, whose steps it might not count.
    if text.len() >= 1 << 32 {
        return Err(Memory);
    }
    match read_script(alloc, text, &subject.source.names, &subject.fts) {
        Ok(script) => Ok(Some(script)),
        Err(ScriptFault::At(_, _)) => Ok(None),
        Err(ScriptFault::Memory) => Err(Memory),
    }
}

/// Appends the conditions of a script behind those of its first steps, unless one passes a limit.
fn append_new(
    alloc: Global,
    subject: &Subject,
    script: &Script,
    known: usize,
    list: &mut Conditions,
) -> Result<bool, Memory>
    requires subject { IsSubject subject.now }
    requires script { IsScript (source_view subject.now.source) (plain_script script.now) }
    requires known { known ≤ length (plain_script script.now) }
    requires before { AreAccepted (source_view subject.now.source) (take known (plain_script script.now)) (plain_list list.old) }
    ensures begins { Begins (plain_list list.old) (plain_list list.new) }
    ensures listed { IfOk result (λ yes. AreListed (source_view subject.now.source) (plain_script script.now) list.new.items yes) }
{
    scripts_are_proofs();
    scripts_are_over();
    over_is_written();
    match append_conditions(
        alloc,
        &subject.source.program,
        &subject.fts,
        script,
        known,
        list,
    ) {
        Ok(()) => Ok(true),
        Err(ObligationFault::TooMany(_)) => Ok(false),
        Err(ObligationFault::TooWide(_)) => Ok(false),
        Err(ObligationFault::TooHeavy(_)) => Ok(false),
        Err(ObligationFault::Memory) => Err(Memory),
    }
}

/// Whether conditions are all decided valid.
fn are_all_valid(
    alloc: Global,
    book: &mut Book,
    components: &Components,
    variables: &[Variable],
    conditions: &[Condition],
) -> Result<bool, Memory>
    requires few { length variables.now < 2 ^ 32 }
    requires searchable { AreSearchable (length variables.now) conditions.now }
    requires knows { Knows (setting components.now variables.now) book.old }
    ensures knows { Knows (setting components.now variables.now) book.new }
    ensures exact { IfOk result (λ yes. yes ≡ are_decided (setting components.now variables.now) (map plain_condition conditions.now)) }
{
    for condition in conditions {
        if let Some(_) = unless_valid(alloc, book, components, variables, condition)? {
            return Ok(false);
        }
    }
    Ok(true)
}

/// Whether conditions of the program are all decided valid.
fn are_decided(
    alloc: Global,
    book: &mut Book,
    subject: &Subject,
    conditions: &[Condition],
) -> Result<bool, Memory>
    requires subject { IsSubject subject.now }
    requires searchable { AreSearchable (length subject.now.source.program.variables) conditions.now }
    requires knows { Knows (setting_of (source_view subject.now.source)) book.old }
    ensures knows { Knows (setting_of (source_view subject.now.source)) book.new }
    ensures exact { IfOk result (λ yes. yes ≡ are_decided (setting_of (source_view subject.now.source)) (map plain_condition conditions.now)) }
{
    let variables = variables_of(&subject.source.program);
    are_all_valid(alloc, book, &subject.components, variables, conditions)
}

/// A text with more behind it.
fn joined(alloc: Global, text: &[u8], more: &[u8]) -> Result<Vec<u8>, Memory>
    ensures { IfOk result (λ v. v.items ≡ text.now ++ more.now) }
{
    let mut out = Vec::with_capacity(alloc, text.len())?;
    push_text(&mut out, text)?;
    push_text(&mut out, more)?;
    Ok(out)
}

/// The conditions behind so many.
fn behind(list: &Conditions, count: usize) -> &[Condition]
    requires { count ≤ length list.now.items }
    ensures { result.now ≡ drop count list.now.items }
{
    &list.items[count..]
}

/// Appends the conditions of a script behind those of its first steps, which are decided valid, and tells whether all are; or
/// one passes a limit.
fn try_new(
    alloc: Global,
    book: &mut Book,
    subject: &Subject,
    script: &Script,
    known: usize,
    list: &mut Conditions,
) -> Result<bool, Memory>
    requires subject { IsSubject subject.now }
    requires script { IsScript (source_view subject.now.source) (plain_script script.now) }
    requires known { known ≤ length (plain_script script.now) }
    requires before { AreAccepted (source_view subject.now.source) (take known (plain_script script.now)) (plain_list list.old) }
    requires knows { Knows (setting_of (source_view subject.now.source)) book.old }
    ensures knows { Knows (setting_of (source_view subject.now.source)) book.new }
    ensures begins { Begins (plain_list list.old) (plain_list list.new) }
    ensures tried { IfOk result (λ yes. AreTried (source_view subject.now.source) (plain_script script.now) (plain_list list.new) yes) }
{
    let count = list.items.len();
    if !append_new(alloc, subject, script, known, list)? {
        return Ok(false);
    }
    are_decided(alloc, book, subject, behind(list, count))
}

/// Keeps the conditions of a script that begins with what is kept, where the script is accepted.
fn take_over(
    alloc: Global,
    book: &mut Book,
    subject: &Subject,
    script: &Script,
    kept: &mut Kept,
) -> Result<bool, Memory>
    requires subject { IsSubject subject.now }
    requires script { IsScript (source_view subject.now.source) (plain_script script.now) }
    requires known { kept.old.steps ≤ length (plain_script script.now) }
    requires before { AreAccepted (source_view subject.now.source) (take kept.old.steps (plain_script script.now)) (plain_list kept.old.conditions) }
    requires knows { Knows (setting_of (source_view subject.now.source)) book.old }
    ensures knows { Knows (setting_of (source_view subject.now.source)) book.new }
    ensures text { kept.new.text.items ≡ kept.old.text.items }
    ensures taken { IfOk result (λ yes. AreTaken (source_view subject.now.source) (plain_script script.now)
        kept.old.steps (plain_list kept.old.conditions) kept.new.steps (plain_list kept.new.conditions) yes) }
{
    let count = kept.conditions.items.len();
    let weight = kept.conditions.weight;
    if try_new(
        alloc,
        book,
        subject,
        script,
        kept.steps,
        &mut kept.conditions,
    )? {
        kept.steps = script.steps.len();
        return Ok(true);
    }
    take_back(&mut kept.conditions, count, weight);
    Ok(false)
}

/// Whether the text with a sentence behind it is accepted. Then it is kept, but for the text itself.
pub fn judged(
    alloc: Global,
    book: &mut Book,
    subject: &Subject,
    kept: &mut Kept,
    sentence: &[u8],
) -> Result<bool, Memory>
    requires subject { IsSubject subject.now }
    requires knows { Knows (setting_of (source_view subject.now.source)) book.old }
    requires accepted { IsKept (source_view subject.now.source) kept.old.text.items kept.old.steps (plain_list kept.old.conditions) }
    ensures knows { Knows (setting_of (source_view subject.now.source)) book.new }
    ensures text { kept.new.text.items ≡ kept.old.text.items }
    ensures judges { IfOk result (λ yes. Judges (source_view subject.now.source) kept.old.text.items sentence.now kept.new.steps (plain_list kept.new.conditions) yes) }
{
    let text = joined(alloc, &kept.text, sentence)?;
    let Some(script) = script_in(alloc, subject, &text)? else {
        return Ok(false);
    };
    take_over(alloc, book, subject, &script, kept)
}

//! `prove`: the certificate of each condition is searched for by one book, and its block is written before the next condition.
//!
//! What the search over lists finds is written straight from the book's table, where equal parts of trees stand once. Where it
//! finds nothing, the problems are searched, and their certificate is written.

ghost use Rattle.std.specs.Prelude.{◌≡◌, ◌<◌, ◌≤◌, ◌++◌, List, [], true, length, get_or, IfOk, OnOk};
ghost use Rattle.st_form.specs.Shared.{given_of, shown_of};
ghost use Rattle.st_form.specs.declared.conditions.Condition.{Condition};
ghost use Rattle.st_certificate.specs.Tree.{Tree};
ghost use Rattle.cert_text.specs.Spelling.{block_text};
ghost use Rattle.control_facts.specs.Alternatives.{control_of};
ghost use Rattle.tree_table.specs.Table.{tree};
ghost use Rattle.tree_table.specs.Nodes.{trees_in};
ghost use Rattle.shared_search.specs.Books.{Knows, IsFound};
ghost use Rattle.discharge.specs.Verdicts.{IsAnswer};
ghost use Rattle.step_report.specs.Goals.{certificates_text};
ghost use Rattle.step_plan.specs.Outcome.{ended_view};
ghost use Rattle.step_run.specs.Conditions.{setting_of};
ghost use Rattle.step_run.specs.Verified.{certificates, written};
ghost use Rattle.step_run.specs.Deciding.{is_valid, tree_in, IsSheet, IsWritten, Writes, WritesFrom};
ghost use Rattle.step_run.specs.Views.{source_view, posed_view};
ghost use Rattle.step_run.specs.Ready.{IsReady};

use crate::deciding::at_verdict;
use crate::posed::Posed;
use crate::reports::{shown, variables_of};
use cert_lengths::room_behind_block;
use cert_text::{Block, write_block, write_header};
use control_facts::components;
use discharge::Components;
use linear_prover::{Book, Verdict, decide};
use shared_search::find;
use st_memory::Memory;
use st_tokens::LimitKind;
use std::alloc::Global;
use step_plan::{End, Ended, Stage, end};
use tree_table::TreeTable;
use tree_writing::Places;

/// The most bytes of a text of certificates.
const MOST: usize = 268_435_456;

/// At most so many lists of conjuncts are searched before the problems are, as `decide` does.
const MOST_LISTS: u32 = 100000;

/// A text of certificates while it is written; whether it is short enough to be checked, and where trees of a block stand in it.
/// Where it isn't, it is left as it is.
#[derive(Drop)]
pub struct Sheet {
    pub text: Vec<u8>,
    pub fits: bool,
    pub places: Places,
}

/// A text without blocks.
fn first_sheet(alloc: Global) -> Result<Sheet, Memory>
    ensures sheet { IfOk result IsSheet }
    ensures written { IfOk result (λ s. IsWritten (certificates_text []) s.text.items s.fits) }
{
    let mut text = Vec::new(alloc);
    write_header(alloc, &mut text)?;
    Ok(Sheet {
        text,
        fits: true,
        places: Places::new(alloc),
    })
}

/// Appends the block of a tree of a table, as long as the text fits.
fn push_found(
    alloc: Global,
    sheet: &mut Sheet,
    table: &TreeTable,
    number: u32,
    root: u32,
) -> Result<(), Memory>
    requires there { root < length (trees_in table.now) }
    requires sheet { IsSheet sheet.old }
    ensures sheet { OnOk result (IsSheet sheet.new) }
    ensures writes { OnOk result (Writes sheet.old sheet.new (block_text number (tree (trees_in table.now) root))) }
{
    if !sheet.fits {
        return Ok(());
    }
    sheet.fits = tree_writing::write_block(
        alloc,
        &mut sheet.text,
        &mut sheet.places,
        table,
        number,
        root,
    )?;
    Ok(())
}

/// Appends the block of a condition that is valid, and answers true; or false, and appends nothing, where the text would be
/// too long to be checked.
fn push_block(
    alloc: Global,
    text: &mut Vec<u8>,
    number: u32,
    verdict: Verdict,
) -> Result<bool, Memory>
    requires { length text.old.items ≤ 268435456 }
    ensures { IfOk result (λ fits. is_valid verdict ≡ true → IsWritten (text.old.items ++ block_text number (tree_in verdict)) text.new.items fits) }
{
    let Verdict::Valid(certificate) = verdict else {
        return Ok(true);
    };
    let room = MOST + 1 - text.len();
    if room_behind_block(room, number, &certificate) == 0 {
        return Ok(false);
    }
    let block = Block {
        number,
        certificate,
    };
    write_block(alloc, &block, text)?;
    Ok(true)
}

/// Appends the block of a verdict that a condition is valid, as long as the text fits.
fn push_verdict(
    alloc: Global,
    sheet: &mut Sheet,
    number: u32,
    verdict: Verdict,
) -> Result<(), Memory>
    requires valid { is_valid verdict ≡ true }
    requires sheet { IsSheet sheet.old }
    ensures sheet { OnOk result (IsSheet sheet.new) }
    ensures writes { OnOk result (Writes sheet.old sheet.new (block_text number (tree_in verdict))) }
{
    if !sheet.fits {
        return Ok(());
    }
    sheet.fits = push_block(alloc, &mut sheet.text, number, verdict)?;
    Ok(())
}

/// The number of the certificate that the search over lists finds for the condition at a place.
fn found_at(
    alloc: Global,
    book: &mut Book,
    components: &Components,
    posed: &Posed,
    place: usize,
) -> Result<Option<u32>, Memory>
    requires ready { IsReady posed.now }
    requires components { components.now ≡ control_of (source_view posed.now.source).processes }
    requires place { place < length posed.now.conditions.items }
    requires knows { Knows (setting_of (source_view posed.now.source)) book.old }
    ensures knows { Knows (setting_of (source_view posed.now.source)) book.new }
    ensures found { IfOk result (λ o. (any : Condition) → IsFound (setting_of (source_view posed.now.source)) (given_of (get_or posed.now.conditions.items place any))
        (shown_of (get_or posed.now.conditions.items place any)) book.new o) }
{
    let variables = variables_of(&posed.source.program);
    let condition = &posed.conditions[place];
    find(alloc, book, components, variables, condition, MOST_LISTS)
}

/// The verdict on the condition at a place.
fn verdict_at(
    alloc: Global,
    book: &mut Book,
    components: &Components,
    posed: &Posed,
    place: usize,
) -> Result<Verdict, Memory>
    requires ready { IsReady posed.now }
    requires components { components.now ≡ control_of (source_view posed.now.source).processes }
    requires place { place < length posed.now.conditions.items }
    requires knows { Knows (setting_of (source_view posed.now.source)) book.old }
    ensures knows { Knows (setting_of (source_view posed.now.source)) book.new }
    ensures answer { IfOk result (λ v. (any : Condition) → IsAnswer (setting_of (source_view posed.now.source)) (get_or posed.now.conditions.items place any) v) }
{
    let variables = variables_of(&posed.source.program);
    let condition = &posed.conditions[place];
    decide(alloc, book, components, variables, condition)
}

/// Writes the block of the condition at a place by the problems, where it is valid, and else ends there.
fn push_searched(
    alloc: Global,
    book: &mut Book,
    components: &Components,
    posed: &Posed,
    place: usize,
    sheet: &mut Sheet,
) -> Result<Stage<()>, Memory>
    requires ready { IsReady posed.now }
    requires components { components.now ≡ control_of (source_view posed.now.source).processes }
    requires place { place < length posed.now.conditions.items }
    requires knows { Knows (setting_of (source_view posed.now.source)) book.old }
    requires sheet { IsSheet sheet.old }
    ensures knows { Knows (setting_of (source_view posed.now.source)) book.new }
    ensures sheet { OnOk result (IsSheet sheet.new) }
    ensures writes { IfOk result (λ s. WritesFrom (posed_view posed.now) place sheet.old sheet.new s) }
{
    let verdict = verdict_at(alloc, book, components, posed, place)?;
    match at_verdict(alloc, posed, place, &verdict)? {
        Stage::On(_) => {
            push_verdict(alloc, sheet, place as u32 + 1, verdict)?;
            Ok(Stage::On(()))
        }
        Stage::Over(ended) => Ok(Stage::Over(ended)),
    }
}

/// Writes the block of the condition at a place where it is valid, and else ends there.
fn push_next(
    alloc: Global,
    book: &mut Book,
    components: &Components,
    posed: &Posed,
    place: usize,
    sheet: &mut Sheet,
) -> Result<Stage<()>, Memory>
    requires ready { IsReady posed.now }
    requires components { components.now ≡ control_of (source_view posed.now.source).processes }
    requires place { place < length posed.now.conditions.items }
    requires knows { Knows (setting_of (source_view posed.now.source)) book.old }
    requires sheet { IsSheet sheet.old }
    ensures knows { Knows (setting_of (source_view posed.now.source)) book.new }
    ensures sheet { OnOk result (IsSheet sheet.new) }
    ensures writes { IfOk result (λ s. WritesFrom (posed_view posed.now) place sheet.old sheet.new s) }
{
    match found_at(alloc, book, components, posed, place)? {
        Some(root) => {
            push_found(alloc, sheet, &book.memo.trees, place as u32 + 1, root)?;
            Ok(Stage::On(()))
        }
        None => push_searched(alloc, book, components, posed, place, sheet),
    }
}

/// The end of a run whose certificates were written, or don't fit.
fn certificates(alloc: Global, sheet: Sheet) -> Result<Ended, Memory>
    ensures { IfOk result (λ e. (ts : List Tree) → IsWritten (certificates_text ts) sheet.text.items sheet.fits → ended_view e ≡ certificates ts) }
{
    if !sheet.fits {
        return end(alloc, End::Limit(LimitKind::Certificates));
    }
    Ok(shown(sheet.text))
}

/// A book for the conditions of a program.
fn first_book(alloc: Global, components: &Components, posed: &Posed) -> Result<Book, Memory>
    requires { components.now ≡ control_of (source_view posed.now.source).processes }
    ensures { IfOk result (λ b. Knows (setting_of (source_view posed.now.source)) b) }
{
    let variables = variables_of(&posed.source.program);
    Book::new(alloc, components, variables)
}

/// Decides all conditions, and writes their certificates where all are valid.
pub fn written(alloc: Global, posed: &Posed) -> Result<Ended, Memory>
    requires ready { IsReady posed.now }
    ensures { IfOk result (λ e. ended_view e ≡ written (posed_view posed.now)) }
{
    let components = components(alloc, &posed.source.program)?;
    let mut book = first_book(alloc, &components, posed)?;
    let mut sheet = first_sheet(alloc)?;
    let mut place = 0;
    while place < posed.conditions.len() {
        match push_next(alloc, &mut book, &components, posed, place, &mut sheet)? {
            Stage::On(_) => place += 1,
            Stage::Over(ended) => return Ok(ended),
        }
    }
    certificates(alloc, sheet)
}

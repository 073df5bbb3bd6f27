//! Certificates, and what is built of one while its text is read.

ghost use Rattle.std.specs.Prelude.{◌≡◌, ◌+◌, ◌<◌, ◌≤◌, ◌^◌, ◌++◌, ◌∷◌, [], IsOk, IfOk, OnOk, length, map};
ghost use Rattle.st_linear.specs.Linear.{of_entries};
ghost use Rattle.st_certificate.specs.Plain.{plain};
ghost use Rattle.cert_text.specs.Control.{picks_closed};
ghost use Rattle.cert_text.specs.Tree.{signed_of, built_view, nothing_built, tree_added, entered_by, head_view, left_to, closed, cut_entered, applied, IsModest};
ghost use Rattle.st_certificate.specs.Tree.{trees as trees_of};

use crate::scan::{Action, Branching};
use st_certificate::Certificate;
use st_linear::Lin;
use st_memory::Memory;
use std::alloc::Global;
use std::mem;

#[derive(Drop)]
pub enum Head {
    Node(Branching, u32),
    Cut(Box<Lin>),
}

/// A node whose braces are open, and the trees before it.
#[derive(Drop)]
pub struct Frame {
    pub head: Head,
    pub before: Vec<Certificate>,
}

/// What is built of a block: the trees in the innermost braces, and what stands round them.
#[derive(Drop)]
pub struct Building {
    pub trees: Vec<Certificate>,
    pub outer: Vec<Frame>,
    pub picks: Vec<(u32, u64)>,
    pub lines: Vec<(u32, i64)>,
    pub terms: Vec<(u32, i128)>,
}

fn signed(negative: bool, size: u64) -> i128
    ensures { result ≡ signed_of negative size }
{
    let n = i128::from(size);
    if negative { -n } else { n }
}

fn signed_pick(negative: bool, size: u64) -> i64
    requires { size < 2 ^ 63 }
    ensures { result ≡ signed_of negative size }
{
    let n = size as i64;
    if negative { -n } else { n }
}

impl Building {
    pub fn new(alloc: Global) -> Building
        ensures { built_view result ≡ nothing_built }
    {
        Building {
            trees: Vec::new(alloc),
            outer: Vec::new(alloc),
            picks: Vec::new(alloc),
            lines: Vec::new(alloc),
            terms: Vec::new(alloc),
        }
    }
}

pub fn add_tree(building: &mut Building, tree: Certificate) -> Result<(), Memory>
    ensures { OnOk result (built_view building.new ≡ tree_added (built_view building.old) (plain tree)) }
{
    building.trees.push(tree)?;
    Ok(())
}

/// How many branches such a node has at most, as a rule.
fn usual_branches(head: &Head) -> usize {
    match head {
        Head::Node(Branching::Case, _) => 8,
        Head::Node(Branching::Truth, _) => 2,
        Head::Node(Branching::Split, _) => 4,
        Head::Cut(_) => 2,
    }
}

pub fn enter(alloc: Global, building: &mut Building, head: Head) -> Result<(), Memory>
    ensures { OnOk result (built_view building.new ≡ entered_by (head_view head) (built_view building.old)) }
{
    let inside = Vec::with_capacity(alloc, usual_branches(&head))?;
    let before = mem::replace(&mut building.trees, inside);
    building.outer.push(Frame { head, before })?;
    Ok(())
}

fn closed(head: Head, trees: Vec<Certificate>) -> Certificate
    ensures { plain result ≡ closed (head_view head) (trees_of (map plain trees.items)) }
{
    match head {
        Head::Node(Branching::Case, n) => Certificate::Case(n, trees),
        Head::Node(Branching::Truth, n) => Certificate::Bool(n, trees),
        Head::Node(Branching::Split, n) => Certificate::Split(n, trees),
        Head::Cut(f) => Certificate::Cut(f, trees),
    }
}

pub fn leave(alloc: Global, building: &mut Building) -> Result<(), Memory>
    ensures { OnOk result (built_view building.new ≡ left_to (built_view building.old).outer (built_view building.old)) }
{
    match building.outer.pop() {
        None => Ok(()),
        Some(Frame { head, before }) => {
            let inside = mem::replace(&mut building.trees, before);
            building.trees.push(closed(head, inside))?;
            Ok(())
        }
    }
}

fn enter_cut(alloc: Global, building: &mut Building, constant: i128) -> Result<(), Memory>
    ensures { OnOk result (built_view building.new
        ≡ cut_entered (of_entries constant (built_view building.old).terms) (built_view building.old)) }
{
    let terms = mem::replace(&mut building.terms, Vec::new(alloc));
    match Lin::of_entries(alloc, constant, terms.as_slice())? {
        None => Ok(()),
        Some(f) => {
            let f = Box::new(alloc, f)?;
            enter(alloc, building, Head::Cut(f))
        }
    }
}

pub fn add_pick(
    building: &mut Building,
    signed: bool,
    row: u32,
    negative: bool,
    size: u64,
) -> Result<(), Memory>
    requires { size < 2 ^ 63 }
    ensures { OnOk result (built_view building.new ≡ applied (Action.Pick signed row negative size) (built_view building.old)) }
{
    if signed {
        building
            .lines
            .push((row.saturating_sub(1), signed_pick(negative, size)))?;
    } else {
        building.picks.push((row.saturating_sub(1), size))?;
    }
    Ok(())
}

/// Adds a leaf of the picks so far.
pub fn add_picks(alloc: Global, building: &mut Building, signed: bool) -> Result<(), Memory>
    ensures { OnOk result (built_view building.new ≡ applied (picks_closed signed) (built_view building.old)) }
{
    if signed {
        let lines = mem::replace(&mut building.lines, Vec::new(alloc));
        add_tree(building, Certificate::Linear(lines))
    } else {
        let picks = mem::replace(&mut building.picks, Vec::new(alloc));
        add_tree(building, Certificate::Farkas(picks))
    }
}

/// Adds what a token adds. Where memory runs out, what is built is worthless.
pub fn apply(alloc: Global, building: &mut Building, action: Action) -> Result<(), Memory>
    requires { IsModest action }
    ensures { OnOk result (built_view building.new ≡ applied action (built_view building.old)) }
{
    match action {
        Action::Nothing => Ok(()),
        Action::Absurd => add_tree(building, Certificate::Absurd),
        Action::Enter(branching, n) => {
            enter(alloc, building, Head::Node(branching, n.saturating_sub(1)))
        }
        Action::Leave => leave(alloc, building),
        Action::Pick {
            signed,
            row,
            negative,
            size,
        } => add_pick(building, signed, row, negative, size),
        Action::Farkas => add_picks(alloc, building, false),
        Action::Linear => add_picks(alloc, building, true),
        Action::Term {
            variable,
            negative,
            size,
        } => {
            building
                .terms
                .push((variable.saturating_sub(1), signed(negative, size)))?;
            Ok(())
        }
        Action::Cut { negative, size } => enter_cut(alloc, building, signed(negative, size)),
    }
}

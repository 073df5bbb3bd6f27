//! What is told of a proof, as plain data. The names of fields are those of `docs/use/json.md`; renderers take this and nothing
//! else.

use serde::Serialize;

/// A place in a file, and the text that stands there. Lines and columns count from 1 and columns count characters; the end column
/// is behind the last. `offset` and `length` are bytes. `source` is the whole line on which the place begins.
#[derive(Serialize, Drop)]
pub struct Spot {
    pub file: String,
    pub line: u64,
    pub column: u64,
    pub end_line: u64,
    pub end_column: u64,
    pub offset: u64,
    pub length: u64,
    pub text: String,
    pub source: String,
    pub note: String,
}

/// A row of a table of states: a component or a variable, what it is before, and what it is behind where there is a step.
/// What nobody asks for is `any`.
#[derive(Serialize, Drop)]
pub struct Row {
    pub name: String,
    pub before: String,
    pub after: Option<String>,
    pub changed: bool,
}

/// One of the cases of which a condition wants one: what it means in the rule, and which of its parts are false.
#[derive(Serialize, Drop)]
pub struct Case {
    pub number: u64,
    pub meaning: String,
    pub missing: Vec<String>,
}

/// An item of a response, or a level of a waiting-for: whether its formula holds in the last state, and how many rounds it asks
/// for there.
#[derive(Serialize, Drop)]
pub struct Item {
    pub number: u64,
    pub formula: String,
    pub holds: bool,
    pub rounds: Option<String>,
}

/// Whose turn it is: which helper is waited for, what may be done in the state, and what the items ask for.
#[derive(Serialize, Drop)]
pub struct Turn {
    pub item: Option<u64>,
    pub helper: Option<String>,
    pub enabled: Vec<String>,
    pub deadlock: bool,
    pub bound: Option<String>,
    pub items: Vec<Item>,
}

/// A condition that isn't decided valid.
#[derive(Serialize, Drop)]
pub struct Failure {
    /// Its number among the conditions, from 1.
    pub number: u64,
    /// Its name as `step` prints it.
    pub name: String,
    pub step: String,
    pub premise: String,
    pub node: Option<u64>,
    pub transition: Option<String>,
    pub mode: u64,
    /// `open` where a state refutes it or a problem was left, `wide` where the search gave up.
    pub reason: String,
    pub title: String,
    pub words: String,
    pub spots: Vec<Spot>,
    pub state: Vec<Row>,
    pub broken: Vec<String>,
    pub alternatives: Vec<Case>,
    pub excluded_by: Vec<String>,
    pub turn: Option<Turn>,
    pub shown: String,
}

/// A step of the proof, with how many conditions it has and how many of them fail.
#[derive(Serialize, Drop)]
pub struct StepReport {
    pub name: String,
    pub kind: String,
    pub rule: String,
    pub using: Vec<String>,
    pub bound: Option<String>,
    pub line: u64,
    pub conditions: u64,
    pub failing: u64,
    pub verdict: String,
}

/// What is told of a proof over a program. `status` and `headline` are `step`'s; `numbers` are those of all conditions that fail.
#[derive(Serialize, Drop)]
pub struct Report {
    pub schema: String,
    pub status: u8,
    pub headline: String,
    pub program: String,
    pub proof: String,
    pub conditions: u64,
    pub failing: u64,
    pub numbers: Vec<u64>,
    pub steps: Vec<StepReport>,
    pub failures: Vec<Failure>,
}

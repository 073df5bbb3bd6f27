//! What words ask for, as data.

/// How a report is written.
#[derive(Clone, Copy, Debug, PartialEq, Eq)]
pub enum Format {
    Text,
    /// The exact text of `step`.
    Plain,
    Json,
    Html,
}

/// When colours are used.
#[derive(Clone, Copy, Debug, PartialEq, Eq)]
pub enum Colour {
    /// Where the text goes to a terminal and `NO_COLOR` isn't set.
    Auto,
    Always,
    Never,
}

/// The work that a command does.
#[derive(Clone, Copy, Debug, PartialEq, Eq)]
pub enum Task {
    Verify,
    Check,
    Prove,
    Trace,
    Invariants,
    Find,
    Conditions,
    Draw,
}

impl Task {
    /// The command that asks for it.
    pub fn name(self) -> &'static str {
        match self {
            Task::Verify => "verify",
            Task::Check => "check",
            Task::Prove => "prove",
            Task::Trace => "trace",
            Task::Invariants => "invariants",
            Task::Find => "find",
            Task::Conditions => "conditions",
            Task::Draw => "draw",
        }
    }
}

/// The files that are named. Without the name of a proof, program and proof stand in one file.
#[derive(Clone, Copy, Debug, PartialEq, Eq)]
pub struct FileNames<'a> {
    pub program: &'a str,
    pub proof: Option<&'a str>,
    /// The certificates, or the schedule; a run is also asked for without one.
    pub third: Option<&'a str>,
    /// What a page shows beside the texts.
    pub drawing: Option<&'a str>,
}

/// The options, with their defaults where they aren't given or the command has none such.
#[derive(Clone, Copy, Debug, PartialEq, Eq)]
pub struct Options<'a> {
    pub format: Format,
    pub colour: Colour,
    /// The most conditions that are shown.
    pub limit: u32,
    pub workers: u32,
    /// The most questions that a search puts to the prover.
    pub budget: u64,
    /// The steps that are goals, with commas between; else all may be.
    pub goals: Option<&'a str>,
    /// The condition that is listed, or the first words of some; else all are.
    pub only: Option<&'a str>,
    /// Whether conditions are written as SMT-LIB 2.
    pub smt: bool,
    /// The schedule that leads to a state whose moves are shown.
    pub from: Option<&'a str>,
    /// Whether moves are taken as standard input says.
    pub step: bool,
    /// Whether certificates are written in version 3.
    pub shared: bool,
    /// The file that the result goes to, in place of standard output.
    pub output: Option<&'a str>,
}

/// The most conditions that are shown, where nothing else is said.
pub(crate) const SHOWN: u32 = 20;

/// The most questions that a search puts, where nothing else is said.
pub(crate) const QUESTIONS: u32 = 200_000;

impl Options<'_> {
    /// The options of words that have none.
    pub(crate) fn unsaid<'a>() -> Options<'a> {
        Options {
            format: Format::Text,
            colour: Colour::Auto,
            limit: SHOWN,
            workers: 1,
            budget: QUESTIONS as u64,
            goals: None,
            only: None,
            smt: false,
            from: None,
            step: false,
            shared: false,
            output: None,
        }
    }
}

/// A task over files.
#[derive(Clone, Copy, Debug, PartialEq, Eq)]
pub struct Work<'a> {
    pub task: Task,
    pub files: FileNames<'a>,
    pub options: Options<'a>,
}

/// A text that is to be laid out.
#[derive(Clone, Copy, Debug, PartialEq, Eq)]
pub struct Layout<'a> {
    pub file: &'a str,
    /// The file that the result goes to, in place of standard output.
    pub output: Option<&'a str>,
    /// Whether it is only seen if the text is laid out.
    pub check: bool,
}

/// Certificates that are to be written in another version.
#[derive(Clone, Copy, Debug, PartialEq, Eq)]
pub struct Rewriting<'a> {
    pub file: &'a str,
    /// The file that the result goes to, in place of standard output.
    pub output: Option<&'a str>,
    /// Whether they are written in version 3.
    pub shared: bool,
}

/// What words ask for.
#[derive(Clone, Copy, Debug, PartialEq, Eq)]
pub enum Request<'a> {
    Work(Work<'a>),
    /// The word that is to be explained, or a list of all.
    Explain(Option<&'a str>),
    Layout(Layout<'a>),
    Rewrite(Rewriting<'a>),
    /// A language server.
    Serve,
    /// The exact program, over the words from this one on.
    Step,
}

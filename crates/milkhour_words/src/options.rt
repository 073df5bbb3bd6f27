//! The options, each described once for all commands that have it.

/// What stands behind an option.
#[derive(Clone, Copy)]
pub enum OptionValue {
    /// Nothing.
    Flag,
    /// Any word; its name in help.
    Word(&'static str),
    /// One of these words, and the default; the first is their name in help.
    Choice(&'static str, &'static [&'static str], &'static str),
    /// A number from the first to the second, and its default.
    Number(i64, i64, &'static str),
}

/// An option of a command.
#[derive(Clone, Copy)]
pub struct OptionRow {
    pub long: &'static str,
    pub short: Option<char>,
    pub value: OptionValue,
    pub help: &'static str,
}

pub const WORKERS: OptionRow = OptionRow {
    long: "workers",
    short: None,
    value: OptionValue::Number(1, 64, "1"),
    help: "Work with N threads; the answer is the same",
};

/// The workers of `find`, whose search is one worker's.
pub const JUDGES: OptionRow = OptionRow {
    long: "workers",
    short: None,
    value: OptionValue::Number(1, 64, "1"),
    help: "Judge what is found with N threads; the answer is the same",
};

pub const FORMAT: OptionRow = OptionRow {
    long: "format",
    short: None,
    value: OptionValue::Choice("FORMAT", &["text", "plain", "json", "html"], "text"),
    help: "How to write the report; plain is the exact text of step, on standard output whatever it says",
};

/// The form of what is found; `step` has no text for it.
pub const FOUND_FORMAT: OptionRow = OptionRow {
    long: "format",
    short: None,
    value: OptionValue::Choice("FORMAT", &["text", "json", "html"], "text"),
    help: "How to write what is found",
};

pub const COLOUR: OptionRow = OptionRow {
    long: "color",
    short: None,
    value: OptionValue::Choice("WHEN", &["auto", "always", "never"], "auto"),
    help: "When to use colours; auto is on terminals, unless NO_COLOR is set",
};

pub const LIMIT: OptionRow = OptionRow {
    long: "limit",
    short: None,
    value: OptionValue::Number(1, 4294967295, "20"),
    help: "Show at most N conditions",
};

pub const FIRST: OptionRow = OptionRow {
    long: "first",
    short: None,
    value: OptionValue::Flag,
    help: "Show the first condition that fails, and no other",
};

pub const OUTPUT: OptionRow = OptionRow {
    long: "output",
    short: Some('o'),
    value: OptionValue::Word("FILE"),
    help: "Write the result to FILE, whole or not at all, and nowhere else",
};

pub const DRAWING: OptionRow = OptionRow {
    long: "drawing",
    short: None,
    value: OptionValue::Word("SVG"),
    help: "Show this drawing on the page of --format html, as dot -Tsvg makes it of what draw writes",
};

pub const GOALS: OptionRow = OptionRow {
    long: "goals",
    short: None,
    value: OptionValue::Word("NAMES"),
    help: "Warn of each step that these, with commas between, don't need",
};

pub const ONLY: OptionRow = OptionRow {
    long: "only",
    short: None,
    value: OptionValue::Word("NAME"),
    help: "Show the condition of this name alone, or those of this step",
};

pub const SMT: OptionRow = OptionRow {
    long: "smt",
    short: None,
    value: OptionValue::Flag,
    help: "Write SMT-LIB 2, for z3 or cvc5",
};

/// The version of certificates that are written.
pub const EDITION: OptionRow = OptionRow {
    long: "version",
    short: None,
    value: OptionValue::Choice("VERSION", &["2", "3"], "2"),
    help: "Write certificates of this version; in those of version 3 each tree stands once",
};

pub const CHECK: OptionRow = OptionRow {
    long: "check",
    short: None,
    value: OptionValue::Flag,
    help: "Write nothing; end with status 1 where the text isn't laid out",
};

pub const BUDGET: OptionRow = OptionRow {
    long: "budget",
    short: None,
    value: OptionValue::Number(1, 4294967295, "200000"),
    help: "Give up after N questions to the prover",
};

pub const FROM: OptionRow = OptionRow {
    long: "from",
    short: None,
    value: OptionValue::Word("SCHEDULE"),
    help: "Show the moves that may be taken from the state to which a schedule leads; PROGRAM is the only file",
};

pub const STEP: OptionRow = OptionRow {
    long: "step",
    short: None,
    value: OptionValue::Flag,
    help: "Take move after move, as lines of standard input say; so it is without a schedule where both ends are a terminal",
};

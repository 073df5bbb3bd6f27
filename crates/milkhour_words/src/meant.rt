//! Words that other tools have for what a command does here. clap says which commands are spelt like a word that is none; this table
//! says which command does what the word means.

use crate::commands::{CommandRow, QUESTIONS, TOOLS};

/// Words that name a command by what it does, each with that command.
static SYNONYMS: [(&str, &str); 46] = [
    ("analyze", "verify"),
    ("certificates", "certs"),
    ("convert", "certs"),
    ("debug", "trace"),
    ("diagram", "draw"),
    ("discover", "find"),
    ("doc", "explain"),
    ("docs", "explain"),
    ("dot", "draw"),
    ("error", "explain"),
    ("exec", "trace"),
    ("execute", "trace"),
    ("export", "conditions"),
    ("format", "fmt"),
    ("goals", "conditions"),
    ("graph", "draw"),
    ("indent", "fmt"),
    ("infer", "find"),
    ("language-server", "lsp"),
    ("layout", "fmt"),
    ("lint", "verify"),
    ("man", "explain"),
    ("moves", "trace"),
    ("obligations", "conditions"),
    ("play", "trace"),
    ("plot", "draw"),
    ("pretty", "fmt"),
    ("proof", "prove"),
    ("refute", "find"),
    ("replay", "trace"),
    ("run", "trace"),
    ("schedule", "trace"),
    ("search", "find"),
    ("serve", "lsp"),
    ("server", "lsp"),
    ("simulate", "trace"),
    ("smt", "conditions"),
    ("solve", "find"),
    ("svg", "draw"),
    ("synthesize", "find"),
    ("test", "verify"),
    ("tidy", "fmt"),
    ("validate", "verify"),
    ("vc", "conditions"),
    ("vcs", "conditions"),
    ("why", "explain"),
];

/// What `step` answers too, of a name.
pub(crate) fn question_named(name: &str) -> Option<&'static CommandRow> {
    QUESTIONS.iter().find(|row| row.name == name)
}

/// The command of a name.
pub(crate) fn command_named(name: &str) -> Option<&'static CommandRow> {
    match question_named(name) {
        Some(row) => Some(row),
        None => TOOLS.iter().find(|row| row.name == name),
    }
}

/// The command that does what a word means; none where the word is no other tool's.
pub fn command_meant(word: &str) -> Option<&'static CommandRow> {
    let (_, name) = SYNONYMS.iter().find(|synonym| synonym.0 == word)?;
    command_named(name)
}

/// The command that stands behind another word, where the first should be.
pub(crate) fn command_behind(words: &[String]) -> Option<&'static CommandRow> {
    words
        .iter()
        .skip(2)
        .find_map(|word| command_named(word.as_str()))
}

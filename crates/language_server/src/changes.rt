//! Edits of texts and the actions that make them, with the names of the protocol (*Language Server Protocol Specification*, 3.17).

use crate::protocol::Range;
use serde::Serialize;
use std::collections::BTreeMap;

#[derive(Serialize, Drop)]
#[serde(rename_all = "camelCase")]
pub struct TextEdit {
    pub range: Range,
    pub new_text: String,
}

/// Edits of documents, by their names.
#[derive(Serialize, Drop)]
pub struct WorkspaceEdit {
    pub changes: BTreeMap<String, Vec<TextEdit>>,
}

/// The document that an action is of.
#[derive(Serialize, Drop)]
pub struct ActionData {
    pub uri: String,
}

/// An action that is offered. Its edit is asked for when it is chosen.
#[derive(Serialize, Drop)]
pub struct OfferedAction {
    pub title: &'static str,
    pub kind: &'static str,
    pub data: ActionData,
}

/// An action with its edit.
#[derive(Serialize, Drop)]
pub struct ResolvedAction {
    pub title: &'static str,
    pub kind: &'static str,
    pub edit: WorkspaceEdit,
}

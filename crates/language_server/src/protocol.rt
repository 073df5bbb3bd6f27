//! What is sent, with the names of the protocol (*Language Server Protocol Specification*, 3.17).

use serde::Serialize;
use serde_json::Value;

/// The version of JSON-RPC.
pub const VERSION: &str = "2.0";

/// A place: lines from 0, and code units of UTF-16 before it in its line.
#[derive(Clone, Copy, Debug, PartialEq, Eq, Serialize)]
pub struct Position {
    pub line: u64,
    pub character: u64,
}

/// From a place to the one behind its last character.
#[derive(Clone, Copy, Debug, PartialEq, Eq, Serialize)]
pub struct Range {
    pub start: Position,
    pub end: Position,
}

/// A range of a document.
#[derive(Serialize, Drop)]
pub struct Location {
    pub uri: String,
    pub range: Range,
}

/// Something that stands beside what is told.
#[derive(Serialize, Drop)]
pub struct Related {
    pub location: Location,
    pub message: String,
}

/// What is wrong at a range, or isn't proved. Of `severity` 1 is an error, 2 a warning, and 3 what is good to know.
#[derive(Serialize, Drop)]
#[serde(rename_all = "camelCase")]
pub struct Diagnostic {
    pub range: Range,
    pub severity: u8,
    pub code: String,
    pub source: &'static str,
    pub message: String,
    pub related_information: Vec<Related>,
}

/// All that is told of a document; what was told before is forgotten.
#[derive(Serialize, Drop)]
pub struct Published {
    pub uri: String,
    pub diagnostics: Vec<Diagnostic>,
}

#[derive(Serialize, Drop)]
pub struct Notification<T: Serialize> {
    pub jsonrpc: &'static str,
    pub method: &'static str,
    pub params: T,
}

#[derive(Serialize, Drop)]
pub struct Response<T: Serialize> {
    pub jsonrpc: &'static str,
    pub id: Value,
    pub result: T,
}

#[derive(Serialize, Drop)]
pub struct ErrorObject {
    pub code: i64,
    pub message: &'static str,
}

#[derive(Serialize, Drop)]
pub struct Failure {
    pub jsonrpc: &'static str,
    pub id: Value,
    pub error: ErrorObject,
}

#[derive(Serialize, Drop)]
#[serde(rename_all = "camelCase")]
pub struct Synchronization {
    pub open_close: bool,
    /// 1: a change has the whole text.
    pub change: u8,
    pub save: bool,
}

#[derive(Serialize, Drop)]
#[serde(rename_all = "camelCase")]
pub struct CompletionOptions {
    pub resolve_provider: bool,
}

#[derive(Serialize, Drop)]
#[serde(rename_all = "camelCase")]
pub struct CodeActionOptions {
    pub code_action_kinds: [&'static str; 1],
    pub resolve_provider: bool,
}

#[derive(Serialize, Drop)]
#[serde(rename_all = "camelCase")]
pub struct Capabilities {
    pub position_encoding: &'static str,
    pub text_document_sync: Synchronization,
    pub hover_provider: bool,
    pub definition_provider: bool,
    pub document_formatting_provider: bool,
    pub completion_provider: CompletionOptions,
    pub code_action_provider: CodeActionOptions,
}

#[derive(Serialize, Drop)]
pub struct ServerInfo {
    pub name: &'static str,
}

#[derive(Serialize, Drop)]
#[serde(rename_all = "camelCase")]
pub struct Initialized {
    pub capabilities: Capabilities,
    pub server_info: ServerInfo,
}

#[derive(Serialize, Drop)]
pub struct Markup {
    pub kind: &'static str,
    pub value: String,
}

#[derive(Serialize, Drop)]
pub struct Hover {
    pub contents: Markup,
    pub range: Range,
}

/// `kind` is 6 for a variable, 14 for a keyword, 18 for what is referred to.
#[derive(Serialize, Drop)]
pub struct CompletionItem {
    pub label: String,
    pub kind: u8,
    pub detail: String,
}

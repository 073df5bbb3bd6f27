//! What a message asks for.

use crate::protocol::Position;
use serde_json::Value;

/// The methods that are answered or heard.
#[derive(Clone, Copy, Debug, PartialEq, Eq)]
pub enum Method {
    Initialize,
    Shutdown,
    Exit,
    Open,
    Change,
    Save,
    Close,
    Hover,
    Definition,
    Completion,
    Formatting,
    Actions,
    Resolve,
    Other,
}

const METHODS: [(&str, Method); 13] = [
    ("initialize", Method::Initialize),
    ("shutdown", Method::Shutdown),
    ("exit", Method::Exit),
    ("textDocument/didOpen", Method::Open),
    ("textDocument/didChange", Method::Change),
    ("textDocument/didSave", Method::Save),
    ("textDocument/didClose", Method::Close),
    ("textDocument/hover", Method::Hover),
    ("textDocument/definition", Method::Definition),
    ("textDocument/completion", Method::Completion),
    ("textDocument/formatting", Method::Formatting),
    ("textDocument/codeAction", Method::Actions),
    ("codeAction/resolve", Method::Resolve),
];

/// The method of a message; `None` where it is no request and no notification.
pub fn method_of(message: &Value) -> Option<Method> {
    let name = message.get("method")?.as_str()?;
    for (word, method) in &METHODS {
        if name == *word {
            return Some(*method);
        }
    }
    Some(Method::Other)
}

fn document(message: &Value) -> Option<&Value> {
    message.get("params")?.get("textDocument")
}

pub fn uri(message: &Value) -> Option<&str> {
    document(message)?.get("uri")?.as_str()
}

/// The text of a document that is opened, or the whole text of a change.
pub fn text(message: &Value) -> Option<&str> {
    if let Some(text) = document(message)?.get("text") {
        return text.as_str();
    }
    let changes = message.get("params")?.get("contentChanges")?.as_array()?;
    changes.last()?.get("text")?.as_str()
}

fn position_in(at: &Value) -> Option<Position> {
    Some(Position {
        line: at.get("line")?.as_u64()?,
        character: at.get("character")?.as_u64()?,
    })
}

/// The position that is asked of, or the begin of the range that is.
pub fn position(message: &Value) -> Option<Position> {
    let params = message.get("params")?;
    match params.get("range") {
        Some(range) => position_in(range.get("start")?),
        None => position_in(params.get("position")?),
    }
}

/// The document of an action that is to be resolved.
pub fn action_uri(message: &Value) -> Option<&str> {
    message.get("params")?.get("data")?.get("uri")?.as_str()
}

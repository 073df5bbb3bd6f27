//! Messages that are sent.

use crate::actions::KIND;
use crate::framing::push_message;
use crate::protocol::{
    Capabilities, CodeActionOptions, CompletionOptions, ErrorObject, Failure, Initialized,
    Notification, Response, ServerInfo, Synchronization, VERSION,
};
use serde::Serialize;
use serde_json::{Value, to_vec};
use st_memory::Memory;
use std::alloc::Global;

fn send<T: Serialize + Drop>(alloc: Global, out: &mut Vec<u8>, message: &T) -> Result<(), Memory> {
    match to_vec(alloc, message) {
        Ok(content) => push_message(out, content.as_slice()),
        // All that is sent is written by derived impls, so nothing but want of memory is refused.
        Err(_) => Err(Memory),
    }
}

pub fn respond<T: Serialize + Drop>(
    alloc: Global,
    out: &mut Vec<u8>,
    id: Value,
    told: T,
) -> Result<(), Memory> {
    let response = Response {
        jsonrpc: VERSION,
        id,
        result: told,
    };
    send(alloc, out, &response)
}

pub fn fail(
    alloc: Global,
    out: &mut Vec<u8>,
    id: Value,
    code: i64,
    message: &'static str,
) -> Result<(), Memory> {
    let failure = Failure {
        jsonrpc: VERSION,
        id,
        error: ErrorObject { code, message },
    };
    send(alloc, out, &failure)
}

pub fn notify<T: Serialize + Drop>(
    alloc: Global,
    out: &mut Vec<u8>,
    method: &'static str,
    params: T,
) -> Result<(), Memory> {
    let notification = Notification {
        jsonrpc: VERSION,
        method,
        params,
    };
    send(alloc, out, &notification)
}

/// What the server does.
pub fn capabilities() -> Initialized {
    Initialized {
        capabilities: Capabilities {
            position_encoding: "utf-16",
            text_document_sync: Synchronization {
                open_close: true,
                change: 1,
                save: true,
            },
            hover_provider: true,
            definition_provider: true,
            document_formatting_provider: true,
            completion_provider: CompletionOptions {
                resolve_provider: false,
            },
            code_action_provider: CodeActionOptions {
                code_action_kinds: [KIND],
                resolve_provider: true,
            },
        },
        server_info: ServerInfo { name: "milkhour" },
    }
}

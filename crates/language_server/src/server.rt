//! The server: messages go in, and messages come out. It reads and writes nothing itself.

use crate::actions::{actions, resolved};
use crate::asked::{Method, action_uri, method_of, position, text, uri};
use crate::documents::Documents;
use crate::formatting::edits;
use crate::names::{completions, definition, hover};
use crate::publishing::{publish, publish_pair};
use crate::replies::{capabilities, fail, respond};
use crate::texts::{Disk, Pair, Source, pair_of};
use crate::verdicts::Verdicts;
use serde_json::Value;
use st_memory::Memory;
use std::alloc::Global;

/// JSON-RPC's codes of errors.
const PARSE_ERROR: i64 = -32700;

const METHOD_NOT_FOUND: i64 = -32601;

const INVALID_PARAMS: i64 = -32602;

/// The protocol's code of a request that is well formed and comes to nothing.
const REQUEST_FAILED: i64 = -32803;

const NOTHING_FOUND: &str = "no proof was found: `milkhour find` says why";

/// How far the session is.
#[derive(Clone, Copy, Debug, PartialEq, Eq)]
pub enum Stage {
    Running,
    /// The client has asked to shut down, and is to say that it ends.
    ShutDown,
    /// The client has ended.
    Ended,
    /// The client has ended before it asked to shut down, or sent what is no message.
    BrokenOff,
}

/// A request that waits for a search.
#[derive(Drop)]
pub struct Search {
    id: Value,
    pub program: Source,
    pub proof: Source,
}

/// A session with an editor.
#[derive(Drop)]
pub struct Server {
    documents: Documents,
    verdicts: Verdicts,
    search: Option<Search>,
    stage: Stage,
}

impl Server {
    pub fn new(alloc: Global) -> Server {
        Server {
            documents: Documents::new(alloc),
            verdicts: Verdicts::new(alloc),
            search: None,
            stage: Stage::Running,
        }
    }

    pub fn stage(&self) -> Stage {
        self.stage
    }

    /// Ends the session, since what came is no message.
    pub fn break_off(&mut self) {
        self.stage = Stage::BrokenOff;
    }

    fn end(&mut self) {
        self.stage = if self.stage == Stage::ShutDown {
            Stage::Ended
        } else {
            Stage::BrokenOff
        };
    }

    /// Tells what there is to tell of the texts to which a file belongs. Behind it the verdicts are those of these texts, if their
    /// conditions are asked for.
    fn tell<D: Disk>(
        &mut self,
        alloc: Global,
        disk: &mut D,
        uri: &str,
        conditions: bool,
        out: &mut Vec<u8>,
    ) -> Result<(), Memory> {
        let Some(pair) = pair_of(alloc, &self.documents, disk, uri)? else {
            return Ok(());
        };
        let steps = publish_pair(alloc, out, &pair, conditions)?;
        match (&pair.proof, steps) {
            (Some(proof), Some(steps)) => self.verdicts.put(alloc, proof.uri.as_str(), steps),
            (Some(proof), None) if conditions => {
                self.verdicts.forget(proof.uri.as_str());
                Ok(())
            }
            _ => Ok(()),
        }
    }

    /// Hears of a document.
    fn hear<D: Disk>(
        &mut self,
        alloc: Global,
        disk: &mut D,
        method: Method,
        message: &Value,
        out: &mut Vec<u8>,
    ) -> Result<(), Memory> {
        let Some(uri) = uri(message) else {
            return Ok(());
        };
        if let Some(text) = text(message) {
            self.documents.put(alloc, uri, text.as_bytes())?;
        }
        if method == Method::Close {
            self.documents.close(uri);
            self.verdicts.forget(uri);
            return publish(alloc, out, uri, Vec::new(alloc));
        }
        let conditions = method == Method::Open || method == Method::Save;
        self.tell(alloc, disk, uri, conditions, out)
    }

    /// Answers what is asked of a place in a document, or of all of it.
    fn answer<D: Disk>(
        &self,
        alloc: Global,
        disk: &mut D,
        method: Method,
        message: &Value,
        id: Value,
        out: &mut Vec<u8>,
    ) -> Result<(), Memory> {
        let Some(uri) = uri(message) else {
            return respond(alloc, out, id, Value::Null);
        };
        if method == Method::Formatting {
            let text = self.documents.get(uri).unwrap_or(b"".as_slice());
            return respond(alloc, out, id, edits(alloc, text)?);
        }
        let Some(pair) = pair_of(alloc, &self.documents, disk, uri)? else {
            return respond(alloc, out, id, Value::Null);
        };
        if method == Method::Completion {
            return respond(alloc, out, id, completions(alloc, &pair)?);
        }
        let Some(at) = position(message) else {
            return respond(alloc, out, id, Value::Null);
        };
        match method {
            Method::Hover => {
                let told = hover(alloc, &pair, &self.verdicts, uri, at)?;
                respond(alloc, out, id, told)
            }
            Method::Actions => {
                let offered = actions(alloc, &pair, &self.verdicts, uri, at)?;
                respond(alloc, out, id, offered)
            }
            _ => respond(alloc, out, id, definition(alloc, &pair, uri, at)?),
        }
    }

    /// Begins a search for the edit of an action.
    fn begin_search<D: Disk>(
        &mut self,
        alloc: Global,
        disk: &mut D,
        message: &Value,
        id: Value,
        out: &mut Vec<u8>,
    ) -> Result<(), Memory> {
        let Some(uri) = action_uri(message) else {
            return fail(alloc, out, id, INVALID_PARAMS, "no action of this server");
        };
        let Some(pair) = pair_of(alloc, &self.documents, disk, uri)? else {
            return fail(alloc, out, id, REQUEST_FAILED, "the program can't be read");
        };
        let Pair { program, proof } = pair;
        let Some(proof) = proof else {
            return fail(alloc, out, id, REQUEST_FAILED, "there is no proof");
        };
        self.search = Some(Search { id, program, proof });
        Ok(())
    }

    /// The search that is waited for.
    pub fn search(&self) -> Option<&Search> {
        self.search.as_ref()
    }

    /// Ends the search that is waited for: its request is answered with the edit that makes the found text of the proof.
    pub fn end_search(
        &mut self,
        alloc: Global,
        found: Option<&[u8]>,
        out: &mut Vec<u8>,
    ) -> Result<(), Memory> {
        let Some(search) = self.search.take() else {
            return Ok(());
        };
        let action = match found {
            Some(found) => resolved(alloc, &search.proof, found)?,
            None => None,
        };
        match action {
            Some(action) => respond(alloc, out, search.id, action),
            None => fail(alloc, out, search.id, REQUEST_FAILED, NOTHING_FOUND),
        }
    }

    /// Answers a request.
    fn reply<D: Disk>(
        &mut self,
        alloc: Global,
        disk: &mut D,
        method: Method,
        message: &Value,
        id: Value,
        out: &mut Vec<u8>,
    ) -> Result<(), Memory> {
        match method {
            Method::Initialize => respond(alloc, out, id, capabilities()),
            Method::Shutdown => {
                self.stage = Stage::ShutDown;
                respond(alloc, out, id, Value::Null)
            }
            Method::Hover
            | Method::Definition
            | Method::Completion
            | Method::Formatting
            | Method::Actions => self.answer(alloc, disk, method, message, id, out),
            Method::Resolve => self.begin_search(alloc, disk, message, id, out),
            Method::Exit
            | Method::Open
            | Method::Change
            | Method::Save
            | Method::Close
            | Method::Other => fail(alloc, out, id, METHOD_NOT_FOUND, "no such request"),
        }
    }

    /// Takes a message, and appends what is sent for it.
    ///
    /// Requests are answered in their order, each once, but for one that waits for a search; what isn't known is refused where it asks for an answer, and else passed over.
    pub fn receive<D: Disk>(
        &mut self,
        alloc: Global,
        disk: &mut D,
        content: &[u8],
        out: &mut Vec<u8>,
    ) -> Result<(), Memory> {
        let Ok(message) = Value::from_slice(alloc, content) else {
            return fail(alloc, out, Value::Null, PARSE_ERROR, "no JSON");
        };
        let Some(method) = method_of(&message) else {
            return Ok(());
        };
        if let Some(id) = message.get("id") {
            let id = id.clone()?;
            return self.reply(alloc, disk, method, &message, id, out);
        }
        match method {
            Method::Exit => {
                self.end();
                Ok(())
            }
            Method::Open | Method::Change | Method::Save | Method::Close => {
                self.hear(alloc, disk, method, &message, out)
            }
            _ => Ok(()),
        }
    }
}

//! What a program meets of the outside: files by name, a sink for its output, and a gate round parallel work.
//!
//! A file or a sink has two meanings that only contracts see: its bytes, where it tells them, and a count of its
//! faults, which never falls. A fault is answered only where the count rose, so a caller that shows the count's rise
//! shows who failed.
#![tactic(auto)]

use thiserror::Error;

mod files;
mod gate;
mod memory_files;
mod memory_sink;
mod silent;
mod sink;

pub use files::Files;
pub use gate::{Gate, OpenGate};
pub use memory_files::MemoryFiles;
pub use memory_sink::MemorySink;
pub use silent::Silent;
pub use sink::Sink;
pub use st_memory::Memory;

/// A fault of the outside. The count of the file or sink that was asked has risen.
#[derive(Clone, Copy, Debug, PartialEq, Eq, Error)]
#[error("the outside failed")]
pub struct Failed;

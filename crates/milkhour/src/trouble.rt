use milkhour_run::Status;
use st_memory::Memory;
use std::alloc::{AllocError, AllocFailed};
use std::io;
use thiserror::Error;

/// What ends a run without an answer.
#[derive(Debug, Drop, Error)]
pub enum Trouble {
    #[error("out of memory")]
    Memory,
    /// The output, or the file that the result goes to, took no more.
    #[error("can't write: {0}")]
    Writing(io::Error),
    /// A file beside the texts can't be read.
    #[error("{0}")]
    Reading(String),
    /// The words ask for what can't be done with these files.
    #[error("{0}")]
    Words(String),
}

impl Trouble {
    /// The status that the run ends with.
    pub fn status(&self) -> Status {
        match self {
            Trouble::Memory => Status::Memory,
            Trouble::Writing(_) => Status::WriteFault,
            Trouble::Reading(_) => Status::ReadFault,
            Trouble::Words(_) => Status::Words,
        }
    }
}

impl From<Memory> for Trouble {
    fn from(_memory: Memory) -> Trouble {
        Trouble::Memory
    }
}

impl From<AllocError> for Trouble {
    fn from(_error: AllocError) -> Trouble {
        Trouble::Memory
    }
}

impl<T: Drop> From<AllocFailed<T>> for Trouble {
    fn from(_error: AllocFailed<T>) -> Trouble {
        Trouble::Memory
    }
}

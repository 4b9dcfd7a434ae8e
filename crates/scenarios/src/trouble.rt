//! Why a case can't be run.

use agent_keeper::KeepFault;
use money_units::NoMemory;
use std::alloc::{AllocError, AllocFailed};
use std::io;

/// Why a case can't be run.
#[derive(Clone, Copy, Debug, PartialEq, Eq)]
pub enum Trouble {
    /// The case file says what can't be read.
    Unreadable(&'static str),
    /// There was no memory for it.
    NoMemory,
    /// The store could not be made, or not be read.
    Store,
}

impl Trouble {
    /// What it is in words.
    pub(crate) fn words(&self) -> &'static str {
        match self {
            Trouble::Unreadable(words) => words,
            Trouble::NoMemory => "out of memory",
            Trouble::Store => "the store could not be made or read",
        }
    }
}

impl From<NoMemory> for Trouble {
    fn from(_: NoMemory) -> Trouble {
        Trouble::NoMemory
    }
}

impl From<AllocError> for Trouble {
    fn from(_: AllocError) -> Trouble {
        Trouble::NoMemory
    }
}

impl<T: Drop> From<AllocFailed<T>> for Trouble {
    fn from(_: AllocFailed<T>) -> Trouble {
        Trouble::NoMemory
    }
}

impl From<KeepFault> for Trouble {
    fn from(_: KeepFault) -> Trouble {
        Trouble::Store
    }
}

impl From<io::Error> for Trouble {
    fn from(_: io::Error) -> Trouble {
        Trouble::Unreadable("the file can't be read")
    }
}

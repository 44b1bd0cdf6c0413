//! Why scenes can't be read or played.
use std::alloc::{AllocError, AllocFailed};

/// Why scenes can't be read or played.
#[derive(Clone, Copy, Debug, PartialEq, Eq)]
pub enum Trouble {
    /// Memory is wanting.
    Memory,
    /// The line of this number, counted from 1, has no form.
    Line(usize),
}

impl From<AllocError> for Trouble {
    fn from(_error: AllocError) -> Trouble {
        Trouble::Memory
    }
}

impl<T: Drop> From<AllocFailed<T>> for Trouble {
    fn from(_error: AllocFailed<T>) -> Trouble {
        Trouble::Memory
    }
}

//! Why terms are refused.
use std::error::Error;
use std::fmt;

/// Why the terms of a class are refused. A position is that of the first bad row, from 1, and 0 where there are too few or
/// too many; a class is the least one of the family that differs.
#[derive(Clone, Copy, Debug, PartialEq, Eq)]
pub enum TermFault {
    BadFront(usize),
    BadDeferred(usize),
    FamilyDiffers(u32),
}

impl fmt::Display for TermFault {
    fn fmt<W: fmt::Write>(&self, f: &mut fmt::Formatter<W>) -> fmt::Result {
        match self {
            TermFault::BadFront(position) => write!(f, "bad front-end load in row {position}"),
            TermFault::BadDeferred(position) => write!(f, "bad deferred load in row {position}"),
            TermFault::FamilyDiffers(class) => write!(f, "class {class} of the family differs"),
        }
    }
}

impl Error for TermFault {}

//! Terms of a class before they are checked.
use crate::lists::{Brackets, Label, Schedule};
use money_units::Cents;

/// The terms of a class as they are handed in, before they are checked.
///
/// Numbers name the class, its calendar, its fund and its family of exchange (0 for none). `counts` says whether its
/// shares count towards the breakpoints of a household, and the minimums are those of a first and of a later purchase.
#[derive(Debug, Drop)]
pub struct TermsForm {
    pub class: u32,
    pub calendar: u32,
    pub fund: u32,
    pub name: Label,
    pub family: u32,
    pub counts: bool,
    pub first_min: Cents,
    pub later_min: Cents,
    pub front: Brackets,
    pub deferred: Schedule,
}

//! Sums over trades: the outstanding shares of each class and the cash of each party, and by how much they change.
use crate::order::Party;
use money_units::List;

/// The outstanding shares of a class, loose and held together, in mils.
#[derive(Clone, Copy, Debug, PartialEq, Eq)]
pub struct ClassMils {
    pub class: u32,
    pub mils: u128,
}

/// The cash of a party in cents; what it owes is negative.
#[derive(Clone, Copy, Debug, PartialEq, Eq)]
pub struct PartyCash {
    pub party: Party,
    pub cents: i128,
}

/// Outstanding shares by class and cash by party.
#[derive(Debug, Drop)]
pub struct Totals {
    pub outstanding: List<ClassMils>,
    pub cash: List<PartyCash>,
}

/// By how many mils the outstanding shares of a class change.
#[derive(Clone, Copy, Debug, PartialEq, Eq)]
pub struct MilsChange {
    pub class: u32,
    pub mils: i128,
}

/// By how many cents the cash of a party changes.
#[derive(Clone, Copy, Debug, PartialEq, Eq)]
pub struct CashChange {
    pub party: Party,
    pub cents: i128,
}

/// What sheets or a correction change: outstanding shares by class and cash by party.
#[derive(Debug, Drop)]
pub struct Changes {
    pub outstanding: List<MilsChange>,
    pub cash: List<CashChange>,
}

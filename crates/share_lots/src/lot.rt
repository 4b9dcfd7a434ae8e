//! A lot, and the piece of it that a redemption takes.
use fund_calendar::Day;
use money_units::{Cents, Mils};

/// Shares that came into a position at one date, with one cost for loose and held ones. A free lot has no deferred
/// charge.
#[derive(Clone, Copy, Debug, PartialEq, Eq)]
pub struct Lot {
    pub number: u32,
    pub day: Day,
    pub loose: Mils,
    pub held: Mils,
    pub cost: Cents,
    pub free: bool,
}

/// Shares that a redemption takes of one lot, with their part of its cost.
#[derive(Clone, Copy, Debug, PartialEq, Eq)]
pub struct Piece {
    pub lot: u32,
    pub day: Day,
    pub mils: Mils,
    pub cost: Cents,
    pub free: bool,
}

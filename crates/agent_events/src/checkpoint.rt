//! The content of a checkpoint row: a household's positions as a replay left them.

use fund_calendar::Day;
use money_units::{Bps, Cents, List, Mils};

/// A lot of a position: its number, the day of its purchase, its loose and its held mils, what both cost, and whether it
/// is free of a deferred charge.
#[derive(Clone, Copy, Debug, PartialEq, Eq)]
pub struct LotRow {
    pub number: u32,
    pub day: Day,
    pub loose: Mils,
    pub held: Mils,
    pub cost: Cents,
    pub free: bool,
}

/// The lots of a position.
pub type LotRows = List<LotRow>;

/// An open letter of intent: its amount, the day on which it began, the household's credit on that day, the rate of its
/// amount, the cents for which shares are still to be held, and the cents of the purchases so far.
#[derive(Clone, Copy, Debug, PartialEq, Eq)]
pub struct LetterRow {
    pub amount: Cents,
    pub day: Day,
    pub start: u128,
    pub rate: Bps,
    pub rest: Cents,
    pub bought: Cents,
}

/// What an account has of a class: whether dividends are paid in cash, the number of the next lot, an open letter, and
/// the lots.
#[derive(Debug, Drop)]
pub struct PositionRow {
    pub account: u32,
    pub class: u32,
    pub in_cash: bool,
    pub next_lot: u32,
    pub letter: Option<LetterRow>,
    pub lots: LotRows,
}

/// The positions of a household.
pub type PositionRows = List<PositionRow>;

/// A household's positions by account and then class, as a checkpoint keeps them.
#[derive(Debug, Drop)]
pub struct StateRow {
    pub household: u32,
    pub positions: PositionRows,
}

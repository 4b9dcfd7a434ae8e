//! Openings, sheets, corrections on trial, and why a sheet is refused.
ghost use Rattle.std.specs.Prelude.{◌≡◌};

use crate::sheet::Prices;
use fund_calendar::Day;
use money_units::{Moment, Nav};
use std::error::Error;
use std::fmt;

/// A published sheet: its number from 1 in order of publication, its calendar, its pricing moment, the day that it prices, and the net asset value of every class of the calendar that was opened
/// before the moment, by rising class number.
#[derive(Debug, Drop)]
pub struct Sheet {
    pub number: u32,
    pub calendar: u32,
    pub moment: Moment,
    pub day: Day,
    pub prices: Prices,
}

/// A correction under trial: another net asset value of one class on one sheet.
#[derive(Clone, Copy, Debug, PartialEq, Eq)]
pub struct Patch {
    pub class: u32,
    pub sheet: u32,
    pub nav: Nav,
}

/// A class of a calendar, and the moment at which it was opened.
#[derive(Clone, Copy, Debug, PartialEq, Eq)]
pub struct Opening {
    pub class: u32,
    pub calendar: u32,
    pub opened: Moment,
}

/// Why a sheet can't be published. The causes are tried in the order of this list.
#[derive(Clone, Copy, Debug, PartialEq, Eq)]
pub enum PublishFault {
    /// The sheet isn't the expected one, whose moment and calendar are the values; both are the first where none is expected.
    SheetOutOfTurn(Moment, u32),
    /// The least class that is missing or too many.
    SheetIncomplete(u32),
    /// The moment of the sheet, which is to come.
    TooSoon(Moment),
}

impl fmt::Display for PublishFault {
    fn fmt<W: fmt::Write>(&self, f: &mut fmt::Formatter<W>) -> fmt::Result {
        match self {
            PublishFault::SheetOutOfTurn(moment, calendar) => {
                write!(
                    f,
                    "the sheet of calendar {calendar} at {} is expected",
                    moment.seconds()
                )
            }
            PublishFault::SheetIncomplete(class) => {
                write!(f, "class {class} is missing or too many")
            }
            PublishFault::TooSoon(moment) => {
                write!(f, "the moment {} is to come", moment.seconds())
            }
        }
    }
}

impl Error for PublishFault {}

/// The sheet doesn't list the class.
#[derive(Clone, Copy, Debug, PartialEq, Eq)]
pub struct NoSheet;

impl fmt::Display for NoSheet {
    fn fmt<W: fmt::Write>(&self, f: &mut fmt::Formatter<W>) -> fmt::Result {
        f.write_str("the sheet doesn't list the class")
    }
}

impl Error for NoSheet {}

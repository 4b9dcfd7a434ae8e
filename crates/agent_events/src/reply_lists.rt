//! The lists that replies hold.
use crate::fields::Identifier;
use money_units::{Cents, List, Mils};

/// A position as `show` answers it: the class, the loose mils, the mils held in escrow, and the cost in cents.
#[derive(Clone, Copy, Debug, PartialEq, Eq)]
pub struct PositionText {
    pub class: Identifier,
    pub loose: Mils,
    pub held: Mils,
    pub cost: Cents,
}

/// What a correction gains a class, in cents; a loss is negative.
#[derive(Clone, Copy, Debug, PartialEq, Eq)]
pub struct ClassGain {
    pub class: Identifier,
    pub cents: i128,
}

/// A class in the books: its outstanding mils and its cash in cents.
#[derive(Clone, Copy, Debug, PartialEq, Eq)]
pub struct ClassBooks {
    pub class: Identifier,
    pub outstanding: u128,
    pub cash: i128,
}

/// A dealer in the books: its cash in cents.
#[derive(Clone, Copy, Debug, PartialEq, Eq)]
pub struct DealerBooks {
    pub dealer: Identifier,
    pub cash: i128,
}

/// The positions that `show` answers, by class.
pub type Positions = List<PositionText>;

/// The gains of a correction, by class.
pub type ClassGains = List<ClassGain>;

/// The classes in the books, by number.
pub type BooksOfClasses = List<ClassBooks>;

/// The dealers in the books, by number.
pub type BooksOfDealers = List<DealerBooks>;

//! Replies and refusals.
use crate::fields::{Identifier, Minimum, Reference};
use crate::reply_lists::{BooksOfClasses, BooksOfDealers, ClassGains, Positions};
use crate::request::{CancelForm, CloseForm};
use money_units::{Bytes, Cents, Mils, Moment};

/// Why a request is refused.
#[derive(Clone, Copy, Debug, PartialEq, Eq)]
pub enum Refusal {
    /// The key has no right to the verb or to the account.
    NoRight,
    /// The text isn't the verb's form; the value is the place of the first field that isn't, 0 for the whole.
    BadForm(u8),
    /// What is named doesn't exist; the value is the place of the first field that names such a thing.
    NoSuch(u8),
    /// The account and reference, or the correction's number, are known with another content.
    RefUsed,
    /// No pricing moment is left for the order.
    CalendarEnded,
    /// The gross of a purchase is smaller than its minimum, which is the value.
    BelowMinimum(Minimum),
    /// The exchange or the letter isn't offered.
    NotOffered,
    /// A dealer's line comes too late for its due moment, which is the value.
    LateForDealer(Moment),
    /// The receipt is later than now, which is the value.
    ReceiptAhead(Moment),
    /// The order to cancel is due, at the moment that is the value.
    CancelLate(Moment),
    /// The order is struck.
    NotPending,
    /// The sheet isn't the expected one, whose moment and calendar are the value; 0 and 0 where none is expected.
    SheetOutOfTurn(Moment, u32),
    /// The sheet's list isn't complete; the value is the least class that is missing or too many.
    SheetIncomplete(u32),
    /// What is to be made stands already, or something stands in its way; the value is its number.
    Stands(u32),
    /// The correction would leave this order of this account unfilled.
    Breaks(Identifier, Reference),
    /// The account has as many orders and cancels as it may have, which is the value.
    OrdersFull(u32),
    /// There are as many of this kind as there may be, which is the value.
    TooMany(u32),
    /// The sheet's moment, which is the value, is still to come.
    TooSoon(Moment),
    /// The journal is full.
    JournalFull,
    /// A script's moment is smaller than the journal's last moment, which is the value.
    StampBack(Moment),
}

/// How an order stands.
#[derive(Clone, Copy, Debug, PartialEq, Eq)]
pub enum OrderState {
    /// No sheet prices it yet.
    Pending,
    Filled,
    /// Not filled: fewer shares are loose.
    Short,
    /// Not filled: no mil would result.
    Small,
    /// Not filled: the position would grow past its limit.
    Ceiling,
    /// Not filled: a letter is open.
    Letter,
    /// Cancelled or voided.
    Struck,
}

/// The reply to an order: the moment of its receipt, and the pricing moment at which it was due when it was accepted.
#[derive(Clone, Copy, Debug, PartialEq, Eq)]
pub struct OrderReply {
    pub account: Identifier,
    pub ref_no: Reference,
    pub receipt: Moment,
    pub due: Moment,
}

/// What became of an order: zeros stand where nothing was traded, and where it has no due moment.
#[derive(Clone, Copy, Debug, PartialEq, Eq)]
pub struct TraceReply {
    pub account: Identifier,
    pub ref_no: Reference,
    pub state: OrderState,
    pub receipt: Moment,
    pub due: Moment,
    pub price: Cents,
    pub mils: Mils,
    pub cash: Cents,
    pub charge: Cents,
    /// The loose mils, of an order that is short.
    pub loose: Mils,
}

/// The books: each class, the underwriter, the agent, each dealer, and all holders together, with cash in cents.
#[derive(Debug, Drop)]
pub struct BooksReply {
    pub classes: BooksOfClasses,
    pub underwriter: i128,
    pub agent: i128,
    pub dealers: BooksOfDealers,
    pub holders: i128,
}

/// The answer to a request.
#[derive(Debug, Drop)]
pub enum Reply {
    Order(OrderReply),
    Cancel(CancelForm),
    Calendar(Identifier),
    Class(Identifier),
    Dealer(Identifier),
    Household(Identifier),
    Account(Identifier),
    Close(CloseForm),
    Dividend {
        class: Identifier,
        moment: Moment,
    },
    /// The sheet is published under this number.
    Sheet(u32),
    /// The correction is kept; these are its gains.
    Fix {
        fix: Reference,
        gains: ClassGains,
    },
    /// The positions of the account that have lots, by class.
    Show {
        account: Identifier,
        positions: Positions,
    },
    Trace(TraceReply),
    Statement {
        account: Identifier,
        text: Bytes,
    },
    Books(BooksReply),
    Refused(Refusal),
}

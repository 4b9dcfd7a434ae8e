//! What comes to the register and what it answers and keeps: requests, orders, events, replies and refusals, each
//! value in its form and range by its type, the rows of accounts, orders and rates, and the items of a script; copies of
//! them, and whether two requests ask the same.
//!
//! The forms of the verbs and the texts of the replies are definitions in specs/: the crates that read requests and
//! print replies are proved to follow them.
#![tactic(auto)]

mod calendars;
mod checkpoint;
mod content;
mod copied;
mod copied_events;
mod copied_lists;
mod copied_texts;
mod dates;
mod event;
mod event_content;
mod fields;
mod forms;
mod item;
mod lists;
mod order;
mod parts;
mod reply;
mod reply_lists;
mod request;
mod rows;
mod texts;
mod totals;
mod trade;
mod verbs;
mod verdict;

pub use crate::checkpoint::{LetterRow, LotRow, LotRows, PositionRow, PositionRows, StateRow};
pub use crate::content::same_request;
pub use crate::copied::Copied;
pub use crate::dates::day_digits;
pub use crate::event::{Event, EventKind, Placed, Source};
pub use crate::event_content::brought_by;
pub use crate::fields::{
    Amount, CorrectedRate, DividendRate, Identifier, Minimum, Quantity, Reference, TimeOfDay,
    Window,
};
pub use crate::item::{Asked, KeyText, ScriptItem};
pub use crate::lists::{Days, FrontBrackets, Holidays, RisingPrices, SheetPrices};
pub use crate::order::{Bearer, Body, Order, OrderRow, Party};
pub use crate::reply::{BooksReply, OrderReply, OrderState, Refusal, Reply, TraceReply};
pub use crate::reply_lists::{
    BooksOfClasses, BooksOfDealers, ClassBooks, ClassGain, ClassGains, DealerBooks, PositionText,
    Positions,
};
pub use crate::request::{
    AccountForm, CalendarForm, CancelForm, ClassForm, CloseForm, DealerForm, DividendForm,
    EntryForm, FixPriceForm, FixRateForm, HouseholdForm, LineForm, Request, SheetForm,
    StatementForm, TraceForm, VoidForm,
};
pub use crate::rows::{AccountRow, RateRow, Rates};
pub use crate::texts::{DealerKey, HouseholdKey, Name, ZoneText, is_operator_key};
pub use crate::totals::{CashChange, Changes, ClassMils, MilsChange, PartyCash, Totals};
pub use crate::trade::{Outcome, Trade, TradeKind, Trades, Why};
pub use crate::verdict::{Caller, Verdict};

//! Orders, and the bearers of a loss.
use crate::fields::{Amount, Identifier, Quantity, Reference};
use money_units::{List, Moment};

/// Who bears the loss of a correction.
#[derive(Clone, Copy, Debug, PartialEq, Eq)]
pub enum Bearer {
    /// The fund itself.
    Fund,
    /// The transfer agent.
    Agent,
    Dealer(Identifier),
}

/// Whose cash it is.
#[derive(Clone, Copy, Debug, PartialEq, Eq)]
pub enum Party {
    /// The holder of this account.
    Holder(u32),
    Class(u32),
    Dealer(u32),
    /// The fund's principal underwriter, who takes the loads.
    Underwriter,
    /// The transfer agent.
    Agent,
}

/// What an order of a class does.
#[derive(Clone, Copy, Debug, PartialEq, Eq)]
pub enum Body {
    /// A purchase for so much money, the load within it.
    Buy {
        class: Identifier,
        gross: Amount,
    },
    /// A redemption of so many mils.
    Sell {
        class: Identifier,
        mils: Quantity,
    },
    /// A redemption for about so much money.
    SellCash {
        class: Identifier,
        amount: Amount,
    },
    /// A redemption of all loose shares.
    SellAll {
        class: Identifier,
    },
    /// An exchange of so many mils into another class.
    Exchange {
        class: Identifier,
        to: Identifier,
        mils: Quantity,
    },
    /// An exchange of all loose shares.
    ExchangeAll {
        class: Identifier,
        to: Identifier,
    },
    /// A letter of intent to buy for so much money.
    Letter {
        class: Identifier,
        amount: Amount,
    },
    /// The election of dividends in cash, or else in shares.
    Elect {
        class: Identifier,
        in_cash: bool,
    },
}

/// An order of an account, what the account calls it, and what it does.
#[derive(Clone, Copy, Debug, PartialEq, Eq)]
pub struct Order {
    pub account: Identifier,
    pub ref_no: Reference,
    pub body: Body,
}

/// An order as corrected: the place of its first event in the journal, its receipt, whether it is struck, and what it does.
#[derive(Clone, Copy, Debug, PartialEq, Eq)]
pub struct OrderRow {
    pub place: u64,
    pub receipt: Moment,
    pub struck: bool,
    pub order: Order,
}

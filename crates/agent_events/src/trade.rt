//! What a sheet does to the shares of a holder: its trades, as the register keeps them.
use fund_calendar::Day;
use money_units::{Cents, List, Mils, Moment};

/// Why an order on a sheet is unfilled.
#[derive(Clone, Copy, Debug, PartialEq, Eq)]
pub enum Why {
    /// More shares were asked for than the loose ones, which are the value, or all of none.
    Short(Mils),
    /// No mil would result.
    TooSmall,
    /// The position would grow past its limit.
    Ceiling,
    /// A letter of that account and class is open.
    LetterOpen,
}

/// What became of an order on its sheet.
#[derive(Clone, Copy, Debug, PartialEq, Eq)]
pub enum Outcome {
    Filled,
    Unfilled(Why),
}

/// What kind of trade it is; an unfilled order has the kind of its order.
#[derive(Clone, Copy, Debug, PartialEq, Eq)]
pub enum TradeKind {
    Buy,
    /// A redemption, of mils, for an amount or of all loose shares.
    Sell,
    Exchange,
    /// A letter of intent begins.
    Letter,
    /// A letter is reached by its purchases.
    LetterReached,
    /// A letter ends by its date.
    LetterEnded,
    ElectCash,
    ElectShares,
    DividendShares,
    DividendCash,
}

/// A trade on a sheet, with 0 where a field has no part. The price is in cents.
///
/// - A purchase has its offering price, the shares bought, the gross as `cash`, and the charge within it.
/// - A redemption has the net asset value, the shares sold, their value, and the deferred charge within it.
/// - An exchange has the net asset value of its class, the shares given and those got, and the value that goes over.
/// - A letter that begins has its amount as `cash`, though no cash moves.
/// - One ended by date has the net asset value, the shares paid, what they pay as `cash`, and the waived part as `charge`.
/// - A dividend has its cash; where it is reinvested, the net asset value and the shares got too.
///
/// Elections, letters that are reached and unfilled orders have none of these numbers.
#[derive(Clone, Copy, Debug, PartialEq, Eq)]
pub struct Trade {
    /// The number of the sheet, from 1.
    pub sheet: u32,
    /// The sheet's moment.
    pub moment: Moment,
    /// The sheet's date.
    pub day: Day,
    pub account: u32,
    /// The reference of its order, 0 where no order made it.
    pub ref_no: u64,
    pub kind: TradeKind,
    pub outcome: Outcome,
    pub class: u32,
    /// The class that an exchange goes to.
    pub to_class: u32,
    pub price: Cents,
    pub mils: Mils,
    /// The new mils of an exchange.
    pub to_mils: Mils,
    pub cash: Cents,
    pub charge: Cents,
}

/// Trades in their order.
pub type Trades = List<Trade>;

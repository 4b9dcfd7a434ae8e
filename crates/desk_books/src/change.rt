//! What an event changes in the books.
use agent_events::Event;
use checkpoint_replay::Change;
use gain_loss_book::Correction;
use reference_tables::{PriceChange, TableChange};

/// What a sheet or a correction makes of the ledger, and for a correction who bears its losses, with its gains.
#[derive(Drop)]
pub struct LedgerChange {
    pub change: Change,
    pub correction: Option<Correction>,
}

/// What an event does to the index of orders.
#[derive(Clone, Copy, Debug, PartialEq, Eq)]
pub enum OrderChange {
    Nothing,
    /// An order of this household is placed.
    Begins(u32),
    /// An order of this household is entered.
    Enters(u32),
    /// The order at this place among all is replaced.
    Replaces(usize),
    /// A sheet takes what it prices.
    Priced,
}

/// An event with all that it changes in the books.
#[derive(Drop)]
pub struct EventChange {
    pub event: Event,
    pub prices: PriceChange,
    pub tables: TableChange,
    pub orders: OrderChange,
    pub ledger: Option<LedgerChange>,
}

//! The orders that were filled, by name.
ghost use Rattle.std.specs.Prelude.{◌≡◌, ◌||◌, IfOk, OnOk};
ghost use Rattle.std.specs.HashSet.{contains};
ghost use Rattle.desk_books.specs.Filled.{fills, name_of, named_filled, same_name};
ghost use Rattle.desk_books.specs.declared.filled.TradeName.{TradeName as Name};
ghost use Rattle.register_machine.specs.rules.Breaks.{is_filled};

use agent_events::{Outcome, Trade};
use money_units::NoMemory;
use std::alloc::Global;
use std::collections::HashSet;

/// What an account calls the order of a trade.
#[derive(Clone, Copy, PartialEq, Eq, Hash)]
pub struct TradeName {
    pub account: u32,
    pub ref_no: u64,
}

/// The names of the trades that are filled.
pub(crate) fn filled_names(alloc: Global, trades: &[Trade]) -> Result<HashSet<TradeName>, NoMemory>
    ensures { IfOk result (λ names.
        (q : Name) → contains same_name names q ≡ named_filled trades.now q) }
{
    let mut names = HashSet::new(alloc);
    for trade in trades {
        put_filled(&mut names, trade)?;
    }
    Ok(names)
}

fn put_filled(names: &mut HashSet<TradeName>, trade: &Trade) -> Result<(), NoMemory>
    ensures { OnOk result ((q : Name)
        → contains same_name names.new q ≡ (contains same_name names.old q || fills q trade.now)) }
{
    if is_filled(trade) {
        names.insert(name_of(trade))?;
    }
    Ok(())
}

pub(crate) fn name_of(trade: &Trade) -> TradeName
    ensures { result ≡ name_of trade.now }
{
    TradeName {
        account: trade.account,
        ref_no: trade.ref_no,
    }
}

pub(crate) fn is_filled(trade: &Trade) -> bool
    ensures { result ≡ is_filled trade.now.outcome }
{
    match trade.outcome {
        Outcome::Filled => true,
        Outcome::Unfilled(_) => false,
    }
}

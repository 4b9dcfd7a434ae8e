//! The first of the orders that a correction breaks in the households' parts.
ghost use Rattle.std.specs.Prelude.{◌≡◌, None};
ghost use Rattle.desk_books.specs.Least.{earlier_of, with_broken};

use crate::turns::Turn;
use agent_events::Trade;

/// A trade that a correction breaks, with its turn.
#[derive(Clone, Copy, Debug, PartialEq, Eq)]
pub struct BrokenTrade {
    pub turn: Turn,
    pub trade: Trade,
}

/// The one with the least turn among the broken trades that were seen, none at first; of two with one turn the first seen.
#[derive(Clone, Copy, Debug, PartialEq, Eq)]
pub struct FirstBroken {
    pub least: Option<BrokenTrade>,
}

impl FirstBroken {
    /// Of no trade.
    pub fn new() -> FirstBroken
        ensures { result.least ≡ None }
    {
        FirstBroken { least: None }
    }

    /// Sees the first trade that is broken in the part of one more household.
    pub fn see(&mut self, turn: Turn, trade: Trade)
        ensures { self.new.least
            ≡ with_broken (record { turn = turn; trade = trade }) self.old.least }
    {
        let broken = BrokenTrade { turn, trade };
        self.least = Some(earlier_of(broken, self.least));
    }
}

fn earlier_of(broken: BrokenTrade, least: Option<BrokenTrade>) -> BrokenTrade
    ensures { result ≡ earlier_of broken least }
{
    match least {
        Some(least) => {
            if broken.turn.comes_before(&least.turn) {
                broken
            } else {
                least
            }
        }
        None => broken,
    }
}

//! Laws of what a correction does.
ghost use Rattle.std.specs.Prelude.{List, None, Option, [], ℕ};
ghost use Rattle.agent_events.specs.Events.{Event};
ghost use Rattle.agent_events.specs.declared.order.Order.{Order};
ghost use Rattle.agent_events.specs.declared.order.OrderRow.{OrderRow};
ghost use Rattle.agent_events.specs.declared.request.AccountForm.{AccountForm};
ghost use Rattle.agent_events.specs.declared.trade.Trade.{Trade};
ghost use Rattle.desk_books.specs.FirstOfAll.{LeastIsFirst, NoneIsBroken};
ghost use Rattle.desk_books.specs.Least.{IsLeastOf, LeastStays};
ghost use Rattle.desk_books.specs.declared.least.BrokenTrade.{BrokenTrade};
ghost use Rattle.desk_books.specs.HouseholdsReopened.{LeavesUnreached};
ghost use Rattle.desk_books.specs.Turns.{TurnsTell};
ghost use Rattle.register_machine.specs.journal.Journals.{Journal};
ghost use Rattle.register_machine.specs.pricing.CorrectedBook.{Book};
ghost use Rattle.register_machine.specs.replay.Trades.{Day};

/// Of two trades whose orders are in a book, the one with the earlier turn is executed before the other.
#[tactic(auto, using(crate::proofs::TurnsTold::turns_tell))]
pub fn turns_tell_the_execution()
    ensures { (orders : List OrderRow) (trade later : Trade) → TurnsTell orders trade later }
{}

/// The trade that is kept as the first one is one of those that were seen, and none of them has an earlier turn.
pub fn the_least_turn_is_kept()
    ensures none { IsLeastOf [] None }
    ensures more { (brokens : List BrokenTrade) (least : Option BrokenTrade) (broken : BrokenTrade)
        → LeastStays brokens least broken }
{}

/// The least of the households' first broken trades is the first broken trade of all, and where they have none there is none.
pub fn the_least_is_the_first_of_all()
    ensures least { (book : Book) (order : Option Order) (before : Day)
        → (accounts : List AccountForm) (brokens : List BrokenTrade) (least : BrokenTrade)
        → LeastIsFirst book order before accounts brokens least }
    ensures none { (book : Book) (order : Option Order) (before : Day)
        → (accounts : List AccountForm) (brokens : List BrokenTrade)
        → NoneIsBroken book order before accounts brokens }
{}

/// A correction leaves the parts of the households that it doesn't reopen.
pub fn unreached_households_are_left()
    ensures { (journal : Journal) (event : Event) (households : List ℕ)
        → LeavesUnreached journal event households }
{}

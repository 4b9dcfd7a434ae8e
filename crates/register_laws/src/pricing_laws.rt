//! Laws of pricing in the trade's words, proved of every lawful journal: price tables, the sheet of an order, its one trade,
//! and what a correction leaves filled.
ghost use Rattle.std.specs.Prelude.{All, ℕ};
ghost use Rattle.agent_events.specs.Events.{Event};
ghost use Rattle.agent_events.specs.declared.order.OrderRow.{OrderRow};
ghost use Rattle.register_machine.specs.journal.Journals.{Journal, with_event};
ghost use Rattle.register_machine.specs.journal.Kinds.{classes_of};
ghost use Rattle.register_machine.specs.journal.Lawful.{IsLawful};
ghost use Rattle.register_machine.specs.pricing.CorrectedBook.{Book};
ghost use Rattle.register_machine.specs.replay.Replay.{replay};
ghost use Rattle.register_machine.specs.rules.Situations.{Situation};
ghost use Rattle.register_laws.specs.Lawful.{book_behind};
ghost use Rattle.register_laws.specs.Priced.{BreaksFirst, FamiliesAgree, HasFewSheets, HasOrderlyTables, IsOfAnOrder, IsPricedWhenDue, LeavesOrdersFilled, NumbersItsSheets, RepliesItsDueMoment, ExecutesInTurn, TradesFollowOrders, TradesOrdersOnce};

/// The price table of a lawful journal is orderly, and so is its book's, corrected in its prices: no pricing moment is passed
/// over (17 CFR 270.22c-1(b)(1)), each sheet lists every class of its calendar that was opened before, and a calendar's sheets
/// rise.
#[tactic(auto, using(crate::proofs::TablesAreOrderly::orderly_tables))]
pub fn tables_are_orderly()
    ensures { (journal : Journal) → IsLawful journal → HasOrderlyTables journal }
{}

/// Its sheets are numbered 1, 2, 3 in the order of their publication.
#[tactic(auto, using(crate::proofs::TablesAreOrderly::numbered))]
pub fn sheets_are_numbered()
    ensures { (journal : Journal) → IsLawful journal → NumbersItsSheets journal }
{}

/// A calendar has no more sheets than pricing days, and these are 3,660 at most; with 16 calendars at most a journal has no
/// more than 58,560 sheets, fewer than 2^32 - 1.
#[tactic(auto, using(crate::proofs::TablesAreOrderly::few_sheets))]
pub fn sheets_are_few()
    ensures { (journal : Journal) → IsLawful journal → HasFewSheets journal }
{}

/// The sheet that prices an order has the order's due moment under the present calendars as its moment: it is executed at the
/// price next computed after its receipt (17 CFR 270.22c-1(a)), and no pricing moment between was passed over.
#[tactic(auto, using(crate::proofs::TablesAreOrderly::priced_when_due_in))]
pub fn orders_are_priced_when_due()
    ensures { (journal : Journal) → IsLawful journal
        → (row : OrderRow) → IsPricedWhenDue (book_behind journal) row }
{}

/// Each order of a lawful journal is traded once, on the sheet of its next price, filled or not; a pending one never, nor one
/// that is struck. So what a look-up by its account and reference finds is the trade on that sheet, or nothing.
#[tactic(auto, using(crate::proofs::OneTradeAnOrder::traded_once))]
pub fn orders_are_traded_once()
    ensures { (journal : Journal) → IsLawful journal → TradesOrdersOnce (book_behind journal) }
{}

/// The classes of a family have one calendar, since a class that would differ is refused; so an exchange has one due moment.
#[tactic(auto, using(crate::proofs::DueAsReplied::families_agree))]
pub fn families_have_one_calendar()
    ensures { (journal : Journal) → IsLawful journal → FamiliesAgree (classes_of journal) }
{}

/// The due moment in the reply to an accepted order is its due moment, in the journal before the order and in the one behind.
#[tactic(auto, using(crate::proofs::DueAsReplied::orders_are_due_as_replied))]
pub fn orders_are_due_as_replied()
    ensures { (journal : Journal) (event : Event)
        → IsLawful (with_event journal event) → RepliesItsDueMoment journal event }
{}

/// No correction leaves an order unfilled that was filled before, nor one that it enters or replaces: it would be refused.
#[tactic(auto, using(crate::proofs::CorrectionsLeaveFilled::corrections_leave_filled))]
pub fn corrections_leave_orders_filled()
    ensures { (journal : Journal) (event : Event)
        → IsLawful (with_event journal event) → LeavesOrdersFilled journal event }
{}

/// The trades of orders stand in the order of execution: those of each sheet in the order of publication, and on a sheet its
/// orders in turn. So what is first among them is first in that order, as the order that a refused correction would break.
#[tactic(auto, using(crate::proofs::OneTradeAnOrder::trades_follow_orders))]
pub fn trades_follow_orders()
    ensures { (book : Book) → TradesFollowOrders book }
{}

/// And a sheet's orders stand by receipt, and at equal receipts by place in the journal, whatever the journal.
#[tactic(auto, using(crate::proofs::ExecutedInTurn::orders_in_turn))]
pub fn orders_stand_in_turn()
    ensures { (journal : Journal) → ExecutesInTurn (book_behind journal) }
{}

/// Only an order's trade is ever unfilled.
#[tactic(auto, using(crate::proofs::ExecutedInTurn::unfilled_are_orders))]
pub fn unfilled_trades_are_orders()
    ensures { (book : Book) → All IsOfAnOrder (replay book).trades }
{}

/// A correction that is refused for what it would break is answered with the order of the first trade that it would break, in
/// the order of sheets and turns.
#[tactic(auto, using(crate::proofs::ExecutedInTurn::first_broken))]
pub fn the_first_broken_is_named()
    ensures { (situation : Situation) (event : Event) (account ref_no : ℕ)
        → BreaksFirst situation event account ref_no }
{}

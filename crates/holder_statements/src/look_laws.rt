//! Laws of the replies: what a look reads of one household and of the books that are kept is what the definitions read of all.
ghost use Rattle.std.specs.Prelude.{List, ℕ};
ghost use Rattle.agent_events.specs.declared.order.OrderRow.{OrderRow};
ghost use Rattle.agent_events.specs.declared.request.AccountForm.{AccountForm};
ghost use Rattle.agent_events.specs.declared.request.TraceForm.{TraceForm};
ghost use Rattle.gain_loss_book.specs.Posted.{Books};
ghost use Rattle.register_machine.specs.corrections.Cash.{Movement};
ghost use Rattle.register_machine.specs.journal.Journals.{Journal};
ghost use Rattle.register_machine.specs.rules.Situations.{Situation};
ghost use Rattle.agent_events.specs.Events.{Event};
ghost use Rattle.holder_statements.specs.EventReplies.{CountsItsSheets, LawfulStandsAsNumbered};
ghost use Rattle.holder_statements.specs.HouseholdLooks.{LawfulIsFitForLooks, LawfulListsHoldings, ShowsByPart, TracesByPart};
ghost use Rattle.holder_statements.specs.KeptBooks.{HoldersTogether};

/// What an account holds by its household's part of the register is what it holds by the whole of it.
#[tactic(auto, using(crate::proofs::PartsLookedAt::shows_by_part))]
pub fn parts_show_what_the_register_shows()
    ensures { (situation : Situation) (household account : ℕ)
        → ShowsByPart situation household account }
{}

/// What became of an order by its household's trades is what became of it by all trades.
#[tactic(auto, using(crate::proofs::PartsLookedAt::traces_by_part))]
pub fn parts_trace_what_all_trades_trace()
    ensures { (situation : Situation) (household : ℕ) (form : TraceForm) (row : OrderRow)
        → TracesByPart situation household form row }
{}

/// Every household's part of a lawful journal's day is as the looks want it: its positions stand by account and class, its
/// trades never fall by sheet, and each of its orders that stands has its trade on the sheet of its next price.
pub fn parts_of_lawful_journals_are_fit_for_looks()
    ensures { (journal : Journal) (household : ℕ) → LawfulIsFitForLooks journal household }
{}

/// The classes of a lawful journal come by rising number, and each in which an account of a household has a position is one of
/// them: so they are what a look at the account goes over.
pub fn classes_of_lawful_journals_list_holdings()
    ensures { (journal : Journal) (household : ℕ) → LawfulListsHoldings journal household }
{}

/// The cash of all holders that is kept is the sum of what movements bring the holders of all accounts, where no holder has two
/// rows, the accounts have different numbers, and movements leave no other holder anything.
#[tactic(auto, using(crate::proofs::HoldersTogether::holders_together))]
pub fn holders_cash_is_their_sum()
    ensures { (accounts : List AccountForm) (movements : List Movement) (books : Books)
        → HoldersTogether accounts movements books }
{}

/// The sheet that an event of a lawful journal publishes stands among all its sheets, by its calendar and moment, with the
/// number that it was given then: one more than the sheets before it.
#[tactic(auto, using(crate::proofs::SheetNumbers::stands_as_numbered))]
pub fn sheets_stand_as_numbered()
    ensures { (journal : Journal) (place : ℕ) (event : Event)
        → LawfulStandsAsNumbered journal place event }
{}

/// The sheets of a journal's table are as many as it publishes, so the next one is answered with one more than their count.
#[tactic(auto, using(crate::proofs::SheetNumbers::counts_its_sheets))]
pub fn sheets_are_counted()
    ensures { (journal : Journal) → CountsItsSheets journal }
{}

//! Laws of cash: all parties together hold nothing, whatever is traded and paid.
ghost use Rattle.std.specs.Prelude.{List};
ghost use Rattle.forward_price.specs.PriceTables.{Table};
ghost use Rattle.agent_events.specs.declared.order.Party.{Party};
ghost use Rattle.register_machine.specs.corrections.Cash.{Movement};
ghost use Rattle.register_machine.specs.journal.Journals.{Journal};
ghost use Rattle.register_machine.specs.journal.Lawful.{IsLawful};
ghost use Rattle.register_machine.specs.pricing.CorrectedBook.{Book};
ghost use Rattle.register_laws.specs.CashBooks.{BalancesToZero, BookedBalances, BooksSumToZero, ReplayBalances};

/// Movements between parties leave all of them together with nothing, whether they are those of trades or what is booked.
#[tactic(auto, using(crate::proofs::CashBalances::balances_to_zero))]
pub fn balances_sum_to_zero()
    ensures { (parties : List Party) (movements : List Movement)
        → BalancesToZero parties movements }
{}

/// So the givers and takers of a replay's trades, each counted once, hold nothing together.
#[tactic(auto, using(crate::proofs::CashBalances::replay_balances))]
pub fn cash_of_a_replay_sums_to_zero()
    ensures { (book : Book) → ReplayBalances book }
{}

/// And so do the givers and takers of all that is booked behind a journal, of its trades and of the payments that its
/// corrections brought.
pub fn what_is_booked_sums_to_zero()
    ensures { (table : Table) (journal : Journal) → BookedBalances table journal }
{}

/// In every lawful journal the figures of the books sum to zero: those of the classes, the underwriter, the agent, the
/// dealers and the holders, for whatever is booked is between parties that the books list, each of them once.
pub fn books_sum_to_zero()
    ensures { (journal : Journal) → IsLawful journal → BooksSumToZero journal }
{}

//! Laws that join changes, gains and the cash book to the definitions. Each function is empty: its clauses hold of the
//! definitions.
ghost use Rattle.std.specs.Prelude.{◌≡◌, ℕ, List};
ghost use Rattle.agent_events.specs.Events.{Event};
ghost use Rattle.agent_events.specs.declared.totals.Changes.{Changes as AllChanges};
ghost use Rattle.agent_events.specs.declared.totals.CashChange.{CashChange as CashChangeRow};
ghost use Rattle.forward_price.specs.declared.price_sheet.Sheet.{Sheet};
ghost use Rattle.register_machine.specs.corrections.Cash.{Movement};
ghost use Rattle.register_machine.specs.corrections.Gains.{gains_between};
ghost use Rattle.register_machine.specs.journal.Journals.{Journal};
ghost use Rattle.register_machine.specs.replay.Trades.{Day};
ghost use Rattle.gain_loss_book.specs.ClassGains.{gains_in};
ghost use Rattle.gain_loss_book.specs.Booked.{AreDifferences, BalancesAfter, MovesAs, SumsToZero};

/// Gains from the differences of two replays are the definition's gains between the two.
#[tactic(auto, using(crate::proofs::BookedFacts::gains_between_are))]
pub fn gains_by_differences_are_those_between()
    ensures { (classes : List ℕ) (before after : Day) (sheets : List Sheet) (changes : AllChanges)
        → AreDifferences changes before after
        → gains_in changes sheets classes ≡ gains_between classes before after sheets }
{}

/// A book whose balances are those of all that is booked up to an event holds, once the event is posted with the changes that it
/// brings and the gains of its correction, what is booked with the event.
#[tactic(auto, using(crate::proofs::BookedFacts::balances_after))]
pub fn posting_books_what_the_event_brings()
    ensures { (journal : Journal) (event : Event) (before after : Day) (changes : AllChanges)
        → AreDifferences changes before after
        → BalancesAfter journal event before after changes }
{}

/// Changes of cash that are those of trades, or by which some trades differ from others, sum to zero: all parties together hold
/// no more by them. So they hold nothing in a book in which such changes are posted, for the payment of a loss comes from one
/// party and goes to another.
pub fn changes_of_movements_sum_to_zero()
    ensures { (changes : List CashChangeRow) (before after : List Movement)
        → MovesAs changes before after → SumsToZero changes }
{}

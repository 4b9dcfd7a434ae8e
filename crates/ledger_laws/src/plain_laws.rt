//! Laws of the ledgers of books, and of events that leave them.
ghost use Rattle.std.specs.Prelude.{[], List, ℕ};
ghost use Rattle.agent_events.specs.Events.{Event};
ghost use Rattle.checkpoint_replay.specs.declared.part.HouseholdPart.{HouseholdPart};
ghost use Rattle.ledger_laws.specs.Ledgers.{IsLedgerOf, LawfulKeepsLedger, SameShownIsALedger};
ghost use Rattle.register_laws.specs.Lawful.{book_behind};
ghost use Rattle.register_machine.specs.journal.Journals.{Journal};
ghost use Rattle.register_machine.specs.pricing.CorrectedBook.{Book};

/// Nothing kept of any household is the ledger of the empty journal.
#[tactic(auto, using(crate::proofs::LedgersOfBooks::empty_ledger))]
pub fn empty_ledgers_are_those_of_no_event()
    ensures { IsLedgerOf (book_behind []) [] }
{}

/// Parts that show the same as a ledger of a book are one of it, too: so it is with room made in it.
#[tactic(auto, using(crate::proofs::LedgersOfBooks::same_shown))]
pub fn ledgers_are_told_by_what_they_show()
    ensures { (book : Book) (parts others : List (ℕ × HouseholdPart))
        → SameShownIsALedger book parts others }
{}

/// An event of a lawful journal that is no correction and no sheet leaves a ledger of the journal's book one of the book behind the
/// event.
pub fn events_leave_ledgers()
    ensures { (journal : Journal) (event : Event) (parts : List (ℕ × HouseholdPart))
        → LawfulKeepsLedger journal event parts }
{}

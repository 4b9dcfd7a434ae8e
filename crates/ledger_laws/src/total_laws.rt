//! Laws of the totals of a ledger.
ghost use Rattle.std.specs.Prelude.{List, ℕ};
ghost use Rattle.agent_events.specs.declared.totals.Changes.{Changes};
ghost use Rattle.checkpoint_replay.specs.Parts.{Households};
ghost use Rattle.checkpoint_replay.specs.declared.change.HouseholdMove.{HouseholdMove};
ghost use Rattle.checkpoint_replay.specs.declared.part.HouseholdPart.{HouseholdPart};
ghost use Rattle.ledger_laws.specs.LedgerTotals.{ChangesAreDifferences, LawfulIsOfHouseholds, TalliedHasTotals};
ghost use Rattle.register_machine.specs.journal.Journals.{Journal};
ghost use Rattle.register_machine.specs.pricing.CorrectedBook.{Book};

/// The book of a lawful journal is orderly, and each of its standing orders is of an account of a household.
#[tactic(auto, using(crate::proofs::HouseholdBooks::is_of_households))]
pub fn lawful_books_are_of_households()
    ensures { (journal : Journal) → LawfulIsOfHouseholds journal }
{}

/// A ledger of such a book whose totals are the sums over its trades has the totals of the book's whole replay.
#[tactic(auto, using(crate::proofs::LedgerTotals::has_totals))]
pub fn tallied_ledgers_have_the_totals()
    ensures { (ledger : Households) (book : Book) → TalliedHasTotals ledger book }
{}

/// Moves of different households that make of a ledger of one such book a ledger of another change the totals by what differs
/// between the two replays.
#[tactic(auto, using(crate::proofs::LedgerTotals::are_differences))]
pub fn changes_are_differences_of_replays()
    ensures { (changes : Changes) (before after : Book) (parts new : List (ℕ × HouseholdPart))
        (moves : List HouseholdMove)
        → ChangesAreDifferences changes before after parts new moves }
{}

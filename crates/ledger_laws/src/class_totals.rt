//! Laws of what is outstanding of a class.
ghost use Rattle.register_machine.specs.journal.Journals.{Journal};
ghost use Rattle.register_machine.specs.pricing.CorrectedBook.{Book};
ghost use Rattle.ledger_laws.specs.ClassTotals.{LawfulTotalsByHouseholds, OrderlyTotalsByDifferences};

/// In an orderly book the outstanding mils of a class are what its trades brought less what they took, over all and in the part of
/// each household.
#[tactic(auto, using(crate::proofs::ClassTotals::totals_by_differences))]
pub fn totals_go_by_differences()
    ensures { (book : Book) → OrderlyTotalsByDifferences book }
{}

/// In a lawful journal they are what the trades of its households' parts brought less what they took, added up over all of them.
pub fn totals_add_up_over_households()
    ensures { (journal : Journal) → LawfulTotalsByHouseholds journal }
{}

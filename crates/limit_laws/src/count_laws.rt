//! Laws of counts: how many accounts, orders, listings on sheets and positions a lawful journal has at most.
ghost use Rattle.register_machine.specs.journal.Journals.{Journal};
ghost use Rattle.register_machine.specs.journal.Lawful.{IsLawful};
ghost use Rattle.limit_laws.specs.Counts.{HasFewPositions, HasFewShares, HasFewThings};

/// A lawful journal has at most 6,400,000 accounts and 100,000,000 orders, and a class is on at most 3,660 of its sheets; so
/// where its sheets rise by class they list at most 3,660,000 prices.
pub fn lawful_journals_have_few_things()
    ensures { (journal : Journal) → IsLawful journal → HasFewThings journal }
{}

/// After each of its sheets, and after all, a class has at most 6,400,000 positions: one for each account at most.
#[tactic(auto, using(crate::proofs::FewPositions::has_few_positions))]
pub fn classes_have_few_positions()
    ensures { (journal : Journal) → IsLawful journal → HasFewPositions journal }
{}

/// So at most 6,400,000 * 10^12 mils of a class are outstanding, fewer than 2^63.
#[tactic(auto, using(crate::proofs::FewPositions::has_few_shares))]
pub fn classes_have_few_shares()
    ensures { (journal : Journal) → IsLawful journal → HasFewShares journal }
{}

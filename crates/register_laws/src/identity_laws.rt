//! Laws of every lawful journal: what was said once isn't said again, moments go on, and the books that it makes are orderly.
ghost use Rattle.std.specs.Prelude.{ℕ, ◌≤◌, count_by};
ghost use Rattle.register_machine.specs.journal.Journals.{Journal, MomentsNeverFall};
ghost use Rattle.register_machine.specs.journal.Lawful.{IsLawful};
ghost use Rattle.register_machine.specs.rules.Limits.{is_of_account, most_orders};
ghost use Rattle.register_laws.specs.Identities.{HasNoIdentityTwice};
ghost use Rattle.register_laws.specs.Lawful.{EachIsBrought, book_behind};
ghost use Rattle.register_laws.specs.Trades.{IsOrderly};

/// Each event is what its own request brings behind the events before it: by a caller with the right to it, with good terms,
/// with content that no event before has, and breaking no rule.
#[tactic(auto, using(crate::proofs::LawfulJournals::each_is_brought))]
pub fn events_are_brought()
    ensures { (journal : Journal) → IsLawful journal → EachIsBrought journal }
{}

/// No identity stands twice: no reference of an account, no number of a correction, calendar, class, dealer, household or
/// account, no key, no closure of a day, no sheet and no dividend of a pricing moment.
#[tactic(auto, using(crate::proofs::HasNoIdentityTwice::no_identity_twice))]
pub fn no_identity_stands_twice()
    ensures { (journal : Journal) → IsLawful journal → HasNoIdentityTwice journal }
{}

/// Its moments never fall.
#[tactic(auto, using(crate::proofs::MomentsNeverFall::moments_never_fall))]
pub fn moments_never_fall()
    ensures { (journal : Journal) → IsLawful journal → MomentsNeverFall journal }
{}

/// An account has at most 4,096 orders and cancels, struck ones too.
pub fn accounts_have_few_orders()
    ensures { (journal : Journal) → IsLawful journal
        → (account : ℕ) → count_by (is_of_account account) journal ≤ most_orders }
{}

/// Its book is orderly: its sheets are numbered 1, 2, 3 .., no standing order exchanges a class into itself, and no account
/// has more than 4,096 standing orders. The machine refuses what would break it.
#[tactic(auto, using(crate::proofs::OrderlyBooks::lawful_book_is_orderly))]
pub fn books_are_orderly()
    ensures { (journal : Journal) → IsLawful journal → IsOrderly (book_behind journal) }
{}

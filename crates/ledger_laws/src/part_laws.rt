//! Laws of a household's part that its steps by facts want: whose it is, what it keeps within limits, and that it can step.
ghost use Rattle.std.specs.Prelude.{List, ℕ};
ghost use Rattle.household_fold.specs.Facts.{Known};
ghost use Rattle.checkpoint_replay.specs.Replays.{NumberedOrder};
ghost use Rattle.register_machine.specs.pricing.CorrectedBook.{Book};
ghost use Rattle.ledger_laws.specs.OwnedByAccounts.{OrderlyNumbersWithin, SoundBooksLetReplay, SoundBooksLetStep, SoundPartsAreOwned};

/// By the facts of a sound book, which have the terms of each class, the positions of a household's part are of its accounts and in
/// classes that have terms, after any number of sheets; and its orders on a sheet are of its accounts, and of classes that the
/// sheet lists.
#[tactic(auto, using(crate::proofs::OwnedParts::owned_by_accounts))]
pub fn parts_are_owned()
    ensures { (known : Known) (book : Book) (household : ℕ)
        → SoundPartsAreOwned known book household }
{}

/// In an orderly book the numbers of lots in a household's part stay within 32 bits after any number of sheets, for every account
/// and class; and where the book is within limits and in range its open letters keep their limits.
#[tactic(auto, using(crate::proofs::PartLimits::numbers_within))]
pub fn numbers_of_lots_stay_within()
    ensures { (book : Book) (household : ℕ) → OrderlyNumbersWithin book household }
{}

/// So where the tables of the facts stand by number and are within limits, all that a household's step asks for holds before each
/// sheet of the book.
pub fn households_can_step_over_each_sheet()
    ensures { (known : Known) (book : Book) (household : ℕ)
        → SoundBooksLetStep known book household }
{}

/// And all that a household's replay asks for over any of the sheets, from its part behind the sheet before them, with rows that
/// are its orders.
pub fn households_can_be_replayed_from_each_sheet()
    ensures { (known : Known) (rows : List NumberedOrder) (book : Book) (household : ℕ)
        → SoundBooksLetReplay known rows book household }
{}

//! Laws of a correction over a ledger.
ghost use Rattle.std.specs.Prelude.{List, [], ℕ};
ghost use Rattle.agent_events.specs.Events.{Event};
ghost use Rattle.checkpoint_replay.specs.declared.change.HouseholdMove.{HouseholdMove};
ghost use Rattle.checkpoint_replay.specs.declared.part.HouseholdPart.{HouseholdPart};
ghost use Rattle.household_fold.specs.Facts.{Known};
ghost use Rattle.checkpoint_replay.specs.Replays.{NumberedOrder};
ghost use Rattle.ledger_laws.specs.CorrectedLedgers.{AreReopenings, CorrectionKeepsAccounts, LedgerIsCorrected, OneIsReopened, ReopeningsCorrect, ReopeningsJoin, SoundBooksReopen, StandingAreRows};
ghost use Rattle.register_machine.specs.journal.Journals.{Journal};
ghost use Rattle.register_machine.specs.pricing.CorrectedBook.{Book};

/// By the facts of a sound book, as that of a lawful journal is and that of a correction on trial, a household can be replayed over
/// all its sheets by its own orders, and the replay gives its part of the book.
pub fn households_reopen_to_their_parts()
    ensures { (known : Known) (rows : List NumberedOrder) (book : Book) (household : ℕ)
        → SoundBooksReopen known rows book household }
{}

/// Orders that are under the number of each sheet the household's on it, in turn, are those of its replay.
#[tactic(auto, using(crate::proofs::CorrectedParts::standing_are_rows))]
pub fn orders_under_sheets_are_rows()
    ensures { (rows : List NumberedOrder) (book : Book) (household : ℕ)
        → StandingAreRows rows book household }
{}

/// From a ledger of one book come the parts of a ledger of another one of the same accounts, where each household is either
/// replayed by the facts of the other book or has the same part in both and stays.
#[tactic(auto, using(crate::proofs::CorrectedParts::ledger_corrected))]
pub fn ledgers_are_corrected()
    ensures { (known : Known) (before after : Book) (parts new : List (ℕ × HouseholdPart))
        → LedgerIsCorrected known before after parts new }
{}

/// No moves reopen no household.
#[tactic(auto, using(crate::proofs::Reopenings::none_reopened))]
pub fn no_moves_are_reopenings()
    ensures { (known : Known) (book : Book) (parts : List (ℕ × HouseholdPart))
        → AreReopenings known book parts [] }
{}

/// The moves of one household, to what its replay by its own orders leaves, reopen it.
#[tactic(auto, using(crate::proofs::Reopenings::one_reopened))]
pub fn one_household_is_reopened()
    ensures { (known : Known) (rows : List NumberedOrder) (book : Book)
        (parts : List (ℕ × HouseholdPart)) (moves : List HouseholdMove) (household : ℕ)
        → OneIsReopened known rows book parts moves household }
{}

/// Moves that reopen households, joined to moves that reopen others, reopen all of them.
#[tactic(auto, using(crate::proofs::Reopenings::reopenings_join))]
pub fn reopenings_join()
    ensures { (known : Known) (book : Book) (parts : List (ℕ × HouseholdPart))
        (moves others : List HouseholdMove) → ReopeningsJoin known book parts moves others }
{}

/// Where the part of each household that isn't moved is the same in two books of the same accounts, moves that reopen the others
/// by the facts of the second book make of a ledger of the first one a ledger of the second.
pub fn reopenings_correct_ledgers()
    ensures { (known : Known) (before after : Book) (parts new : List (ℕ × HouseholdPart))
        (moves : List HouseholdMove) → ReopeningsCorrect known before after parts new moves }
{}

/// A correction opens no account.
#[tactic(auto, using(crate::proofs::CorrectedParts::keeps_accounts))]
pub fn corrections_keep_accounts()
    ensures { (journal : Journal) (event : Event) → CorrectionKeepsAccounts journal event }
{}

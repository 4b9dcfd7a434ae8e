//! Laws of trades within the limits: how many a sheet makes, how much one moves, and how much all of them move.
ghost use Rattle.register_machine.specs.journal.Journals.{Journal};
ghost use Rattle.register_machine.specs.journal.Lawful.{IsLawful};
ghost use Rattle.register_machine.specs.pricing.CorrectedBook.{Book};
ghost use Rattle.limit_laws.specs.Moved.{CountedMovesLittle, InFormStaysWithin};
ghost use Rattle.limit_laws.specs.SmallTrades.{SheetsAddFewTrades, TradesAreSmall};

/// A sheet of a limited book pays at most one dividend and ends at most one letter for each account and price on it, and makes
/// one trade of each of its orders, two where a purchase reaches its letter's amount.
#[tactic(auto, using(crate::proofs::ReplayedTrades::sheets_add_few_trades))]
pub fn sheets_add_few_trades()
    ensures { (book : Book) → SheetsAddFewTrades book }
{}

/// Every trade of a limited book is small: at most 10^12 mils, and cents by its kind, 10^15 of a purchase, 10^16 of a redemption
/// and of an exchange, 10^14 of a dividend, and 85,000,000,000 of a letter that ends by date.
#[tactic(auto, using(crate::proofs::ReplayedTrades::trades_are_small))]
pub fn trades_are_small()
    ensures { (book : Book) → TradesAreSmall book }
{}

/// So where such a book has few things its replay has at most 5 * 10^13 trades, which together move at most 5 * 10^27 cents and
/// bring at most 3 * 10^25 mils.
pub fn trades_move_little_together()
    ensures { (book : Book) → CountedMovesLittle book }
{}

/// The book of a lawful journal whose events are in their forms is limited and has few things, so its trades move so little.
#[tactic(auto, using(crate::proofs::LawfulWithin::in_form_stays_within))]
pub fn lawful_journals_stay_within()
    ensures { (journal : Journal) → IsLawful journal → InFormStaysWithin journal }
{}

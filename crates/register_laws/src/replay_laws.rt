//! Laws of the replay of a book: what its register and its letters keep, whichever sheet comes next.
ghost use Rattle.std.specs.Prelude.{ℕ};
ghost use Rattle.forward_price.specs.declared.price_sheet.Sheet.{Sheet};
ghost use Rattle.register_machine.specs.journal.Journals.{Journal};
ghost use Rattle.register_machine.specs.journal.Lawful.{IsLawful};
ghost use Rattle.register_machine.specs.pricing.CorrectedBook.{Book};
ghost use Rattle.register_machine.specs.replay.Positions.{Register};
ghost use Rattle.register_laws.specs.LawfulReplays.{HasALawfulBook, KeepsItsReplay};
ghost use Rattle.register_laws.specs.LettersBought.{KeepsBought};
ghost use Rattle.register_laws.specs.PurchaseRates.{PurchasesHaveTheirRate};
ghost use Rattle.register_laws.specs.ReplayKeeps.{CreditStaysLow, OrderlyKeepsLetters, OrderlyKeepsRegisters};
ghost use Rattle.register_laws.specs.TradeCash.{TradesMoveTheirCash};

/// In every orderly book the register is kept, after each sheet, at the turn of each order and at last: one position for an
/// account and class, by account and then class; lots with mils and numbers that differ, one of them free at most; mils held only
/// under an open letter; at most 10^12 mils and 10^15 cents of cost in a position, 8,192 lots of an account that aren't free, and
/// numbers of lots below 2^31. A purchase brings one lot, and an exchange one for each lot that it takes from; the parts of an
/// account's lots, loose and held, grow by two at most with each of its orders, of which there are 4,096 at most.
#[tactic(auto, using(crate::proofs::RegistersKept::keeps_registers))]
pub fn registers_are_kept()
    ensures { (book : Book) → OrderlyKeepsRegisters book }
{}

/// And where the book is within limits and in range each open letter keeps its own: purchases short of its amount of at most
/// 10^12 cents, a rate of at most 850 basis points, a rest of at most 5 * 10^10 cents, and a credit of at most 10^21 cents, since
/// a household has 64 accounts at most, each with 1,000 positions at most, of which none is worth more than 10^16.
#[tactic(auto, using(crate::proofs::LettersKept::keeps_letters))]
pub fn letters_are_kept()
    ensures { (book : Book) → OrderlyKeepsLetters book }
{}

/// On a register that is kept no household's credit passes 10^21 cents, where the book is within limits and its prices in range.
pub fn credits_stay_low()
    ensures { (book : Book) (sheet : Sheet) (register : Register) (account : ℕ)
        → CreditStaysLow book sheet register account }
{}

/// In every book what an open letter has bought is the gross of the purchases that were filled in its account and class since
/// the trade by which it began, and no letter began or ended there since.
pub fn letters_are_bought()
    ensures { (book : Book) → KeepsBought book }
{}

/// In every book within limits each trade moves the cash of its kind: a purchase's charge goes from the holder to the
/// underwriter and the rest to the class, a redemption's charge from the class to the underwriter and the rest to the holder;
/// an exchange's value goes from class to class, a dividend from the class to the holder, and back where it is reinvested, and
/// the shortfall of a letter from the class to the underwriter. Charge and rest make the cash, and all else moves none.
#[tactic(auto, using(crate::proofs::TradesMoveCash::trades_move_their_cash))]
pub fn trades_move_their_cash()
    ensures { (book : Book) → TradesMoveTheirCash book }
{}

/// In every book each filled purchase is that of an order whose turn it is, and it has the rate of its gross and its
/// household's credit as the register stands at that turn, or of an open letter's amount where that is greater.
#[tactic(auto, using(crate::proofs::PurchasesRated::purchases_have_their_rate))]
pub fn purchases_have_their_rate()
    ensures { (book : Book) → PurchasesHaveTheirRate book }
{}

/// The book of a lawful journal is orderly and within limits, and it is in range where the fields of its events are: prices of
/// at most 10^7 cents, and letters of 1 to 10^12 cents.
#[tactic(auto, using(crate::proofs::LawfulReplaysKept::has_a_lawful_book))]
pub fn lawful_journals_have_a_lawful_book()
    ensures { (journal : Journal) → IsLawful journal → HasALawfulBook journal }
{}

/// So its registers are kept, its trades move their cash, shares come and go by trades alone, and its letters are kept where its
/// events are in range.
#[tactic(auto, using(crate::proofs::LawfulReplaysKept::keeps_its_replay))]
pub fn lawful_journals_keep_their_replay()
    ensures { (journal : Journal) → IsLawful journal → KeepsItsReplay journal }
{}

//! Laws of the replay of a journal with one event more.
ghost use Rattle.std.specs.Prelude.{Bool, List, Option, ℕ, ◌≡◌};
ghost use Rattle.agent_events.specs.Events.{Event};
ghost use Rattle.agent_events.specs.declared.order.Order.{Order};
ghost use Rattle.agent_events.specs.declared.request.AccountForm.{AccountForm};
ghost use Rattle.forward_price.specs.declared.price_sheet.Sheet.{Sheet};
ghost use Rattle.register_machine.specs.journal.Journals.{Journal};
ghost use Rattle.register_laws.specs.Lawful.{book_behind};
ghost use Rattle.register_machine.specs.journal.Lawful.{IsLawful};
ghost use Rattle.register_machine.specs.pricing.CorrectedBook.{Book};
ghost use Rattle.register_machine.specs.replay.Replay.{replay_over};
ghost use Rattle.register_machine.specs.replay.Trades.{Day};
ghost use Rattle.register_laws.specs.EventReplays.{LawfulAddsSheet, LawfulLeavesReplay};
ghost use Rattle.register_laws.specs.FirstBroken.{FirstBrokenIsFirst};
ghost use Rattle.register_laws.specs.TradesInTurn.{TradesAreInTurn};
ghost use Rattle.register_laws.specs.PartsStay.{LawfulPartsStay, SameParts};
ghost use Rattle.register_laws.specs.ReadsAlike.{ReplaysAlike};
ghost use Rattle.register_laws.specs.TriedCorrections.{TriedHasABook};

/// Two books that agree on what each sheet reads of known accounts and classes, of which all standing orders are, replay alike.
pub fn books_replay_alike()
    ensures { (book other : Book) (known named : ℕ → Bool) (sheets : List Sheet)
        → ReplaysAlike book other known named sheets }
{}

/// An event of a lawful journal that is no correction and no sheet leaves the replay as it was, whole and up to each sheet: a
/// calendar, a closure, a class, a dealer, a household, an account, a dividend, an order, which waits, and a cancel, which
/// strikes an order that waits.
#[tactic(auto, using(crate::proofs::EventReplays::leaves_replay))]
pub fn events_leave_the_replay()
    ensures { (journal : Journal) (event : Event) → LawfulLeavesReplay journal event }
{}

/// A sheet is one day more: it comes behind the others, nothing before it changes, and the replay goes on over it from where it
/// was, with the orders that it prices.
pub fn sheets_are_days_more()
    ensures { (journal : Journal) (event : Event) → LawfulAddsSheet journal event }
{}

/// The trades of orders are in the order of execution, by sheet, and on a sheet by receipt and then place in the journal; so the
/// first of some trades is told by their sheets and their orders.
#[tactic(auto, using(crate::proofs::OrderTurns::trades_in_turn))]
pub fn trades_are_in_turn()
    ensures { (book : Book) → TradesAreInTurn book }
{}

/// Among the first orders that a correction breaks in each household's part, the first of all is the one that is executed before
/// all others.
#[tactic(auto, using(crate::proofs::FirstBroken::first_broken_is_first))]
pub fn the_first_broken_is_executed_first()
    ensures { (book : Book) (order : Option Order) (before : Day) (accounts : List AccountForm)
        (household : ℕ) → FirstBrokenIsFirst book order before accounts household }
{}

/// The book of a correction on trial behind a lawful journal has its sheets by number, as many as before, and orders of one name
/// each that go in turn.
pub fn corrections_on_trial_have_a_book()
    ensures { (journal : Journal) (event : Event) → TriedHasABook journal event }
{}

/// An event that is no correction and no sheet leaves each household's part as it was; an account that it opens is of nobody's part.
pub fn events_leave_each_part()
    ensures { (journal : Journal) (event : Event) → LawfulPartsStay journal event }
{}

/// The parts of the replay over any sheets of a lawful journal's book are the same with the accounts of one event more.
pub fn parts_stay_with_one_account_more()
    ensures { (journal : Journal) (event : Event) (sheets : List Sheet)
        → IsLawful journal → SameParts journal event (replay_over (book_behind journal) sheets) }
{}

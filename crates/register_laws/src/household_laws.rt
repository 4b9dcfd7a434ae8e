//! Laws of a household's part of the register, and of two books that agree.
ghost use Rattle.std.specs.Prelude.{List, Option, ℕ};
ghost use Rattle.agent_events.specs.Events.{Event};
ghost use Rattle.agent_events.specs.declared.order.Order.{Order};
ghost use Rattle.agent_events.specs.declared.order.OrderRow.{OrderRow};
ghost use Rattle.agent_events.specs.declared.request.AccountForm.{AccountForm};
ghost use Rattle.agent_events.specs.declared.request.FixPriceForm.{FixPriceForm};
ghost use Rattle.agent_events.specs.declared.request.FixRateForm.{FixRateForm};
ghost use Rattle.forward_price.specs.declared.price_sheet.Sheet.{Sheet};
ghost use Rattle.register_machine.specs.journal.Journals.{Journal};
ghost use Rattle.register_machine.specs.pricing.CorrectedBook.{Book};
ghost use Rattle.register_machine.specs.replay.Trades.{Day};
ghost use Rattle.register_laws.specs.AlikeBooks.{AlikeBooksStepAlike};
ghost use Rattle.register_laws.specs.BrokenByParts.{BreaksByParts, LawfulUnreachedIsUnbroken};
ghost use Rattle.register_laws.specs.CorrectionReach.{LawfulEventReach, LawfulSheetsNeverFall, PriceLeavesOthers, TriedEventReach, RateLeavesOthers};
ghost use Rattle.register_laws.specs.HouseholdSheets.{CorrectedPartGoesOn, PartGoesOn, QuietLeavesPart};
ghost use Rattle.register_laws.specs.HouseholdSums.{LawfulSumsOverHouseholds};
ghost use Rattle.register_laws.specs.Isolation.{IsolatesBatches, IsolatesHouseholds};
ghost use Rattle.register_laws.specs.Households.{ReplayedAlone, LawfulReplayedInView};

/// A sheet does the same in two books that agree on the terms of each class, the household of each account, each rate and each
/// price before a moment.
#[tactic(auto, using(crate::proofs::StepsAlike::books_step_alike))]
pub fn alike_books_step_alike()
    ensures { (book other : Book) (sheet : Sheet) (rows : List OrderRow) (day : Day)
        → AlikeBooksStepAlike book other sheet rows day }
{}

/// The part of a household of the replay over any sheets, the positions and trades of its accounts in their order, is the replay
/// of its own book over them.
pub fn households_are_replayed_alone()
    ensures { (book : Book) (household : ℕ) (sheets : List Sheet)
        → ReplayedAlone book household sheets }
{}

/// So in a lawful journal it is the replay of the household's view of the journal, over all sheets and up to each of them.
pub fn households_are_replayed_in_their_views()
    ensures { (journal : Journal) (household : ℕ) → LawfulReplayedInView journal household }
{}

/// A sheet on which a household has no order, no payment and no letter that ends leaves its part as it was.
pub fn quiet_sheets_leave_a_part()
    ensures { (book : Book) (household : ℕ) (before : List Sheet) (sheet : Sheet)
        → QuietLeavesPart book household before sheet }
{}

/// The part of a household after sheet `to` is the replay of its own book, over the sheets behind `from`, from its part after
/// sheet `from`.
pub fn parts_go_on_from_a_checkpoint()
    ensures { (book : Book) (household from to : ℕ) → PartGoesOn book household from to }
{}

/// And in a corrected book from the part in the other one, where the correction touches no sheet up to there.
pub fn corrected_parts_go_on_from_a_checkpoint()
    ensures { (book other : Book) (household from to : ℕ)
        → CorrectedPartGoesOn book other household from to }
{}

/// Each order of a lawful journal is of exactly one household, and the outstanding mils of a class and the cash of a party are
/// the sums over the households' parts, after each sheet and after all.
pub fn totals_are_sums_over_households()
    ensures { (journal : Journal) → LawfulSumsOverHouseholds journal }
{}

/// A corrected price leaves the part of each household as it was that has no standing order which names its class.
pub fn corrected_prices_leave_others()
    ensures { (book : Book) (form : FixPriceForm) (household : ℕ)
        → PriceLeavesOthers book form household }
{}

/// So does a corrected rate.
pub fn corrected_rates_leave_others()
    ensures { (book : Book) (form : FixRateForm) (household : ℕ)
        → RateLeavesOthers book form household }
{}

/// The moments of a lawful journal's sheets never fall, in the order of their numbers.
pub fn sheets_of_lawful_journals_never_fall()
    ensures { (journal : Journal) → LawfulSheetsNeverFall journal }
{}

/// So in a lawful journal. And an event of an order leaves the parts of all households as they were but its account's, and up to
/// a sheet the whole register and all trades, where the order is on none of the sheets up to it, neither before the event nor
/// behind it.
#[tactic(auto, using(crate::proofs::OrderReach::event_reach))]
pub fn events_reach_so_far()
    ensures { (journal : Journal) (event : Event) → LawfulEventReach journal event }
{}

/// And so far reaches a correction behind a lawful journal while it is on trial, before it is known whether it breaks an order.
#[tactic(auto, using(crate::proofs::OrderReach::tried_event_reach))]
pub fn events_on_trial_reach_so_far()
    ensures { (journal : Journal) (event : Event) → TriedEventReach journal event }
{}

/// While a lawful journal isn't full, an order, a dealer's line, a cancel and a look at an account of a household are answered as
/// from the household's view of the journal, for every key and moment: with the same reply, and the same event appended.
pub fn households_are_isolated()
    ensures { (journal : Journal) (household : ℕ) → IsolatesHouseholds journal household }
{}

/// So is a dealer's batch of one line.
pub fn batches_are_isolated()
    ensures { (journal : Journal) (household : ℕ) → IsolatesBatches journal household }
{}

/// The first trade that a correction breaks, in the order of sheets and turns, is the first that it breaks in its household's
/// part, and no household's part has one that stands before it.
#[tactic(auto, using(crate::proofs::BrokenByParts::breaks_by_parts))]
pub fn the_least_broken_order_is_its_households()
    ensures { (accounts : List AccountForm) (order : Option Order) (before after : Day)
        → BreaksByParts accounts order before after }
{}

/// A household that a correction doesn't reach has no broken order, where the orders of the lawful journal have references above
/// 0: its part stays, and the correction isn't about its order.
pub fn unreached_households_have_no_broken_order()
    ensures { (journal : Journal) → LawfulUnreachedIsUnbroken journal }
{}

//! Laws of a journal with one event more: what that event does to what the journal says.
ghost use Rattle.std.specs.Prelude.{ℕ};
ghost use Rattle.agent_events.specs.Events.{Event};
ghost use Rattle.register_machine.specs.journal.Journals.{Journal};
ghost use Rattle.register_machine.specs.journal.Lawful.{IsLawful};
ghost use Rattle.register_laws.specs.NamesStand.{NamesStand};
ghost use Rattle.register_laws.specs.LawfulLimits.{KeepsItsLimits, ClassesHaveGoodLoads, LawfulHasShortLists, LawfulFitsRow, LawfulNamesWhatStands};
ghost use Rattle.register_laws.specs.OneEventMore.{BookGoesOn, TableGoesOn, CorrectedTableGoesOn, OrdersGoOn, RatesGoOn, KindsGoOn, PaymentsGoOn, ViewGoesOn, LawfulBeginsAnew, LawfulPricesAnew, LawfulBookGoesOn, LawfulFixesOnePrice};

/// The price table goes on by the event.
#[tactic(auto, using(crate::proofs::OneEventMore::table_goes_on))]
pub fn tables_go_on()
    ensures { (journal : Journal) (event : Event) → TableGoesOn journal event }
{}

/// So do the dividend rates: a dividend and a correction of one come behind the others.
#[tactic(auto, using(crate::proofs::OneEventMore::rates_go_on))]
pub fn rates_go_on()
    ensures { (journal : Journal) (event : Event) → RatesGoOn journal event }
{}

/// Calendars, closures, classes, dealers, households, accounts and sheets come behind the others of their kind.
pub fn kinds_go_on()
    ensures { (journal : Journal) (event : Event) → KindsGoOn journal event }
{}

/// The payments are those before and those of the event.
#[tactic(auto, using(crate::proofs::OneEventMore::payments_go_on))]
pub fn payments_go_on()
    ensures { (journal : Journal) (event : Event) → PaymentsGoOn journal event }
{}

/// The corrected table goes on as the published one does, and a corrected price changes its class on the sheets of its
/// moment; where the event is a sheet, none of its prices was corrected before.
#[tactic(auto, using(crate::proofs::TablesGoOn::corrected_table_goes_on))]
pub fn corrected_tables_go_on()
    ensures { (journal : Journal) (event : Event) → CorrectedTableGoesOn journal event }
{}

/// An order comes behind the others, a cancel and a void strike the one that they name, a replacement gives it another
/// receipt and content, and all else keeps them; where the event begins an order, nothing before names it.
#[tactic(auto, using(crate::proofs::OrdersGoOn::orders_go_on))]
pub fn orders_go_on()
    ensures { (journal : Journal) (event : Event) → OrdersGoOn journal event }
{}

/// A household sees one event more where it is public or its own; where the event opens an account, nothing before is about
/// it.
pub fn views_go_on()
    ensures { (household : ℕ) (journal : Journal) (event : Event)
        → ViewGoesOn household journal event }
{}

/// Every order that an event of a lawful journal begins, and every account that it opens, is new to the journal before: so its
/// orders and each household's view go on by each of its events.
#[tactic(auto, using(crate::proofs::NothingBefore::begins_anew))]
pub fn lawful_journals_begin_anew()
    ensures { (journal : Journal) (event : Event) → LawfulBeginsAnew journal event }
{}

/// No price of a sheet that a lawful journal publishes was corrected before, since a class has one sheet a moment: so its
/// corrected table goes on by each of its events.
#[tactic(auto, using(crate::proofs::PricesAnew::prices_anew))]
pub fn lawful_journals_price_anew()
    ensures { (journal : Journal) (event : Event) → LawfulPricesAnew journal event }
{}

/// A lawful journal has at most 16 calendars, 1,000 classes, 1,000 dealers and 100,000 households, 64 accounts of a household,
/// 4,096 orders and cancels of an account, and 100,000,000 events.
pub fn lawful_journals_keep_their_limits()
    ensures { (journal : Journal) → IsLawful journal → KeepsItsLimits journal }
{}

/// Every class of a lawful journal has good loads: 1 to 16 breakpoints, the first from nothing on, with rising floors and rates
/// that don't rise, at most 10 deferred rates that don't rise, and no rate above 850 basis points.
#[tactic(auto, using(crate::proofs::FitsRows::classes_have_good_loads))]
pub fn classes_of_lawful_journals_have_good_loads()
    ensures { (journal : Journal) → IsLawful journal → ClassesHaveGoodLoads journal }
{}

/// Each thing that an event of a lawful journal names stood before it: an account's household and dealer, a class's calendar,
/// an order's account and classes, the order that a correction or a cancel is about.
#[tactic(auto, using(crate::proofs::FitsRows::names_what_stands))]
pub fn events_of_lawful_journals_name_what_stands()
    ensures { (journal : Journal) (event : Event) → LawfulNamesWhatStands journal event }
{}

/// The loads of a class that a lawful journal brings are few, and a sheet whose prices rise lists at most as many classes as
/// there are.
#[tactic(auto, using(crate::proofs::FitsRows::has_short_lists))]
pub fn events_of_lawful_journals_have_short_lists()
    ensures { (journal : Journal) (event : Event) → LawfulHasShortLists journal event }
{}

/// So an event of a lawful journal fits a stored row where its lists are in the forms that a text has them in.
#[tactic(auto, using(crate::proofs::FitsRows::fits_a_row))]
pub fn events_of_lawful_journals_fit_a_row()
    ensures { (journal : Journal) (event : Event) → LawfulFitsRow journal event }
{}

/// The corrected book of any journal goes on by an event that touches nothing which was changed before it, judged or not.
#[tactic(auto, using(crate::proofs::BooksGoOn::book_goes_on_by))]
pub fn books_go_on()
    ensures { (journal : Journal) (event : Event) → BookGoesOn journal event }
{}

/// So the corrected book of a lawful journal goes on by each of its events.
#[tactic(auto, using(crate::proofs::BooksGoOn::book_goes_on))]
pub fn books_of_lawful_journals_go_on()
    ensures { (journal : Journal) (event : Event) → LawfulBookGoesOn journal event }
{}

/// What a lawful journal names stands in it: the household and the dealer of each account, the calendar of each class, the
/// account and the classes of each order as it is corrected.
#[tactic(auto, using(crate::proofs::NamesStand::names_stand))]
pub fn names_of_lawful_journals_stand()
    ensures { (journal : Journal) → IsLawful journal → NamesStand journal }
{}

/// A correction of a price in a lawful journal is that of one sheet by its number, which lists the class at that moment.
pub fn corrections_of_lawful_journals_fix_one_price()
    ensures { (journal : Journal) (event : Event) → LawfulFixesOnePrice journal event }
{}

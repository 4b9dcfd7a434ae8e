//! What a request meets when it comes, and each look-up that a rule makes in it.
ghost use Rattle.std.specs.Prelude.{◌≡◌, ◌==◌, ◌||◌, count_by, false, is_some, length, ℕ, map, option_and_then, slice_get};
ghost use Rattle.std.specs.List.{list_any};
ghost use Rattle.std.specs.Option.{option_copied, option_map_or};
ghost use Rattle.fund_calendar.specs.PricingDays.{lists_day, moment_on};
ghost use Rattle.forward_price.specs.Orderly.{IsOrderly};
ghost use Rattle.forward_price.specs.PriceTables.{calendar_numbered, number_at};
ghost use Rattle.forward_price.specs.Turns.{due_of};
ghost use Rattle.request_rules.specs.Inquiries.{FitsJournal, calendar_lists_day, calendar_prices_at, account_is_of, account_names, class_has_moment, opening_prices_at, situation_with};
ghost use Rattle.register_machine.specs.journal.Kinds.{account_numbered, class_numbered, dealers_of, dealer_numbered, households_of};
ghost use Rattle.register_machine.specs.pricing.CorrectedOrders.{order_named};
ghost use Rattle.register_machine.specs.pricing.CorrectedBook.{calendar_of, due_at};
ghost use Rattle.register_machine.specs.pricing.DividendRates.{declares};
ghost use Rattle.register_machine.specs.rules.Identities.{has_fix, has_reference};
ghost use Rattle.register_machine.specs.rules.Orders.{is_published_at, ordered_before};
ghost use Rattle.agent_events.specs.declared.request.Request.{Request};
ghost use Rattle.register_laws.specs.Identities.{AtMostOne, has_number, is_class};
ghost use Rattle.register_machine.specs.rules.Callers.{owns, serves};
ghost use Rattle.register_machine.specs.rules.Sheets.{sheet_fault};
ghost use Rattle.class_terms.specs.Checking.{differs_in_family, family_fault};
ghost use Rattle.request_rules.specs.VerbRules.{class_declares, with_class_at, with_differing};
ghost use Rattle.register_machine.specs.rules.Terms.{terms_of};
ghost use Rattle.register_machine.specs.rules.Standing.{holder_of_key, is_declared_in};
ghost use Rattle.register_machine.specs.rules.Limits.{accounts_in, is_of_account};
ghost use Rattle.register_machine.specs.rules.NamedThings.{has_account, has_bearer, has_calendar, has_class, has_day, has_dealer, has_household, has_moment, has_order, has_price, lists_at, prices_at};

use agent_events::{
    AccountForm, Bearer, Body, Caller, ClassForm, DealerForm, Identifier, OrderRow, Reference,
    SheetForm,
};
use forward_price::{Opening, PriceBook, PublishFault, Sheet, lists_class};
use fund_calendar::{Calendar, Day};
use money_units::Moment;
use order_book::{Identity, OrderBook};
use register_machine::{class_of, target_of};
use std::marker::Model;

/// The book of orders, the prices that fit it, now, and the caller. Contracts see it as the situation of the definitions.
#[derive(Drop)]
pub struct Inquiry<'a> {
    book: &'a OrderBook,
    prices: &'a PriceBook,
    moment: Moment,
    caller: Caller,
}

impl<'a> Model for Inquiry<'a> {
    ghost use Rattle.request_rules.specs.Inquiries.{FitsJournal, situation_with};
    ghost use Rattle.register_machine.specs.rules.Situations.{Situation};

    ghost Value = { Situation };

    ghost view = { λ inquiry. situation_with inquiry.prices.now.table inquiry.book.now.journal
        inquiry.moment inquiry.caller };

    ghost invariant = { λ inquiry. FitsJournal inquiry.prices.now.table inquiry.book.now.journal };
}

impl<'a> Inquiry<'a> {
    /// What a request of this caller meets at this moment.
    pub fn new(
        book: &'a OrderBook,
        prices: &'a PriceBook,
        moment: Moment,
        caller: Caller,
    ) -> Inquiry<'a>
        requires { FitsJournal prices.now.table book.now.journal }
        ensures { result ≡ situation_with prices.now.table book.now.journal moment caller }
    {
        Inquiry {
            book,
            prices,
            moment,
            caller,
        }
    }

    /// When the request comes.
    pub fn moment(&self) -> Moment
        ensures { result ≡ self.now.now }
    {
        self.moment
    }

    /// Who asks.
    pub fn caller(&self) -> Caller
        ensures { result ≡ self.now.caller }
    {
        self.caller
    }

    /// How many events are noted.
    pub fn len(&self) -> u64
        ensures { result ≡ length self.now.journal }
    {
        self.book.len()
    }

    pub(crate) fn has_calendar(&self, number: Identifier) -> bool
        ensures { result ≡ has_calendar self.now number }
    {
        self.prices.calendar(number.number()).is_some()
    }

    pub(crate) fn class(&self, number: Identifier) -> Option<&ClassForm>
        ensures { option_copied result ≡ class_numbered self.now.book.classes number }
    {
        self.book.class(number.number())
    }

    pub(crate) fn has_class(&self, number: Identifier) -> bool
        ensures { result ≡ has_class self.now number }
    {
        self.book.class(number.number()).is_some()
    }

    pub(crate) fn dealer(&self, number: u32) -> Option<&DealerForm>
        ensures { option_copied result ≡ dealer_numbered (dealers_of self.now.journal) number }
    {
        self.book.dealer(number)
    }

    pub(crate) fn has_dealer(&self, number: u32) -> bool
        ensures { result ≡ has_dealer self.now number }
    {
        self.book.dealer(number).is_some()
    }

    pub(crate) fn account(&self, number: u32) -> Option<&AccountForm>
        ensures { option_copied result ≡ account_numbered self.now.book.accounts number }
    {
        self.book.account(number)
    }

    pub(crate) fn has_account(&self, number: Identifier) -> bool
        ensures { result ≡ has_account self.now number }
    {
        self.book.account(number.number()).is_some()
    }

    pub(crate) fn order(&self, account: Identifier, ref_no: Reference) -> Option<&OrderRow>
        ensures { option_copied result ≡ order_named self.now.book.orders account ref_no }
    {
        self.book.order(account.number(), ref_no.number())
    }

    pub(crate) fn has_order(&self, account: Identifier, ref_no: Reference) -> bool
        ensures { result ≡ has_order self.now account ref_no }
    {
        self.book.order(account.number(), ref_no.number()).is_some()
    }

    /// Whether the order is there and struck.
    pub(crate) fn is_struck(&self, account: Identifier, ref_no: Reference) -> bool
        ensures { result ≡ option_map_or
            (λ row. row.struck) (order_named self.now.book.orders account ref_no) false }
    {
        match self.book.order(account.number(), ref_no.number()) {
            Some(row) => row.struck,
            None => false,
        }
    }

    pub(crate) fn has_bearer(&self, bearer: Bearer) -> bool
        ensures { result ≡ has_bearer self.now bearer }
    {
        match bearer {
            Bearer::Fund => true,
            Bearer::Agent => true,
            Bearer::Dealer(dealer) => self.has_dealer(dealer.number()),
        }
    }

    /// How many accounts a household has.
    pub(crate) fn accounts_in(&self, household: Identifier) -> usize
        ensures { result ≡ accounts_in self.now household }
    {
        self.book.accounts_in(household.number())
    }

    /// How many orders and cancels an account has, struck ones too.
    pub(crate) fn orders_in(&self, account: Identifier) -> usize
        ensures { result ≡ count_by (is_of_account account) self.now.journal }
    {
        self.book.orders_in(account.number())
    }

    /// Whether the account is one of the household's.
    pub(crate) fn owns(&self, household: u32, number: Identifier) -> bool
        ensures { result ≡ owns self.now.book.accounts household number }
    {
        self.account_is_of(number.number(), household)
    }

    fn account_is_of(&self, number: u32, household: u32) -> bool
        ensures held { result ≡ account_is_of self.now.book.accounts household number }
        ensures once { (n : ℕ) → AtMostOne (has_number n) self.now.book.accounts }
    {
        match self.book.account(number) {
            Some(account) => account.household.number() == household,
            None => false,
        }
    }

    /// Whether the account names the dealer.
    pub(crate) fn serves(&self, dealer: u32, number: Identifier) -> bool
        ensures { result ≡ serves self.now.book.accounts dealer number }
    {
        self.account_names(number.number(), dealer)
    }

    fn account_names(&self, number: u32, dealer: u32) -> bool
        ensures named { result ≡ account_names self.now.book.accounts dealer number }
        ensures once { (n : ℕ) → AtMostOne (has_number n) self.now.book.accounts }
    {
        match self.book.account(number) {
            Some(account) => account.dealer == dealer,
            None => false,
        }
    }

    /// How many calendars there are.
    pub(crate) fn calendars(&self) -> usize
        ensures { result ≡ length self.now.book.table.calendars }
    {
        self.book.calendars()
    }

    /// How many classes there are.
    pub(crate) fn classes(&self) -> usize
        ensures count { result ≡ length self.now.book.classes }
        ensures once { (n : ℕ) → AtMostOne (is_class n) self.now.book.classes }
    {
        self.book.classes()
    }

    // The least class so far that differs from a class in its family, with the class at a place behind it.
    fn with_class_at(&self, least: Option<u32>, form: &ClassForm, place: usize) -> Option<u32>
        ensures { result
            ≡ with_class_at (terms_of form.now) least (slice_get self.now.book.classes place) }
    {
        match self.book.class_at(place) {
            Some(other) => with_differing(least, form, other),
            None => least,
        }
    }

    // Whether the class at a place is one of the calendar with a dividend declared at the moment.
    fn declares_at(&self, calendar: u32, moment: Moment, place: usize) -> bool
        ensures { result ≡ option_map_or (class_declares self.now.book.rates.declared calendar
            moment) (slice_get self.now.book.classes place) false }
    {
        match self.book.class_at(place) {
            Some(form) => form.calendar.number() == calendar
                && self.is_declared(form.class, moment),
            None => false,
        }
    }

    /// How many dealers there are.
    pub(crate) fn dealers(&self) -> usize
        ensures { result ≡ length (dealers_of self.now.journal) }
    {
        self.book.dealers()
    }

    /// How many households there are.
    pub(crate) fn households(&self) -> usize
        ensures { result ≡ length (households_of self.now.journal) }
    {
        self.book.households()
    }

    /// Why the sheet may not be published, for the first of three causes.
    pub(crate) fn sheet_fault(&self, form: &SheetForm) -> Option<PublishFault>
        ensures { result ≡ sheet_fault self.now (Request.Sheet form.now) }
    {
        let tested = self.prices.test(
            form.calendar.number(),
            form.moment,
            form.prices.as_slice(),
            self.moment,
        );
        match tested {
            Ok(()) => None,
            Err(fault) => Some(fault),
        }
    }

    pub(crate) fn has_household(&self, number: Identifier) -> bool
        ensures { result ≡ has_household self.now number }
    {
        self.book.household(number.number()).is_some()
    }

    /// Whether the account has an order or a cancel of this reference.
    #[tactic(auto, using(crate::proofs::Named::reference_placed))]
    pub(crate) fn has_reference(&self, account: Identifier, ref_no: Reference) -> bool
        ensures { result ≡ has_reference self.now (account, ref_no) }
    {
        let named = Identity::Reference {
            account: account.number(),
            ref_no: ref_no.number(),
        };
        self.book.place(named).is_some()
    }

    /// Whether a correction has this number.
    #[tactic(auto, using(crate::proofs::Named::fix_placed))]
    pub(crate) fn has_fix(&self, fix: Reference) -> bool
        ensures { result ≡ has_fix self.now fix }
    {
        self.book.place(Identity::Fix(fix.number())).is_some()
    }

    /// The calendar of a class.
    pub(crate) fn calendar_of(&self, class: Identifier) -> Option<Identifier>
        ensures { result ≡ calendar_of self.now.book class }
    {
        match self.book.class(class.number()) {
            Some(form) => Some(form.calendar),
            None => None,
        }
    }

    /// Whether another order of the account to buy the class stands whose first event is earlier.
    pub(crate) fn has_bought(&self, row: &OrderRow, class: Identifier) -> bool
        ensures { result ≡ list_any (ordered_before row.now class) self.now.book.orders }
    {
        self.book.has_bought(row, class.number())
    }

    /// The household with this key, else the dealer with it.
    pub(crate) fn holder_of_key(&self, key: &[u8]) -> Option<u32>
        ensures { result ≡ holder_of_key self.now.journal key.now }
    {
        match self.book.household_with_key(key) {
            Some(household) => Some(household),
            None => self.book.dealer_with_key(key),
        }
    }

    /// Whether a dividend of the class at the pricing moment is declared.
    pub(crate) fn is_declared(&self, class: Identifier, moment: Moment) -> bool
        ensures { result ≡ list_any (declares class moment) self.now.book.rates.declared }
    {
        self.book.dividend(class.number(), moment).is_some()
    }

    /// Whether the sheet of the class's calendar at the pricing moment is published.
    pub(crate) fn is_published_at(&self, class: Identifier, moment: Moment) -> bool
        ensures { result ≡ is_published_at self.now.book class moment }
    {
        match self.calendar_of(class) {
            Some(calendar) => self.prices.sheet_at(calendar.number(), moment).is_some(),
            None => false,
        }
    }

    /// Whether the day is a pricing day of the calendar.
    pub(crate) fn has_day(&self, calendar: Identifier, day: Day) -> bool
        ensures { result ≡ has_day self.now calendar day }
    {
        self.calendar_lists_day(calendar.number(), day)
    }

    fn calendar_lists_day(&self, calendar: u32, day: Day) -> bool
        ensures listed { result ≡ calendar_lists_day self.now.book.table.calendars day calendar }
        ensures orderly { IsOrderly self.now.book.table }
    {
        match self.prices.calendar(calendar) {
            Some(listing) => lists_day(listing, day),
            None => false,
        }
    }

    /// The moment of a calendar's pricing day.
    pub(crate) fn moment_on(&self, calendar: Identifier, day: Day) -> Option<Moment>
        ensures { result ≡ option_and_then (λ listing. moment_on listing day)
            (calendar_numbered self.now.book.table.calendars calendar) }
    {
        match self.prices.calendar(calendar.number()) {
            Some(listing) => listing.moment_of(day),
            None => None,
        }
    }

    /// Whether the sheet of the calendar's pricing moment is published.
    pub(crate) fn is_published(&self, calendar: Identifier, moment: Moment) -> bool
        ensures { result ≡ is_some (number_at self.now.book.table.sheets calendar moment) }
    {
        self.prices.sheet_at(calendar.number(), moment).is_some()
    }

    /// Whether the moment is a pricing moment of the class's calendar after the class's opening.
    pub(crate) fn has_moment(&self, class: Identifier, moment: Moment) -> bool
        ensures { result ≡ has_moment self.now class moment }
    {
        self.class_has_moment(class.number(), moment)
    }

    fn class_has_moment(&self, class: u32, moment: Moment) -> bool
        ensures priced { result ≡ class_has_moment self.now.book.table moment class }
        ensures orderly { IsOrderly self.now.book.table }
    {
        match self.prices.opening(class) {
            Some(opening) => self.opening_has_moment(opening, moment),
            None => false,
        }
    }

    // Whether the moment is one of the calendar of an opening, and behind it.
    fn opening_has_moment(&self, opening: &Opening, moment: Moment) -> bool
        ensures { result ≡ opening_prices_at self.now.book.table.calendars moment opening.now }
    {
        opening.opened < moment && self.calendar_prices_at(opening.calendar, moment)
    }

    fn calendar_prices_at(&self, calendar: u32, moment: Moment) -> bool
        ensures { result ≡ calendar_prices_at self.now.book.table.calendars moment calendar }
    {
        match self.prices.calendar(calendar) {
            Some(listing) => prices_at(listing, moment),
            None => false,
        }
    }

    /// Whether a published sheet of the moment lists the class.
    pub(crate) fn has_price(&self, class: Identifier, moment: Moment) -> bool
        ensures { result ≡ has_price self.now class moment }
    {
        self.prices
            .sheets()
            .iter()
            .any(|sheet| is_listed_at(class.number(), moment, sheet))
    }

    /// The due moment of an order of these classes with this receipt.
    fn due_of(&self, classes: &[u32], receipt: Moment) -> Option<Moment>
        ensures { result ≡ due_of self.now.book.table classes.now receipt }
    {
        self.prices.due(classes, receipt)
    }

    /// The due moment of an order with this receipt.
    pub(crate) fn due_at(&self, body: &Body, receipt: Moment) -> Option<Moment>
        ensures { result ≡ due_at self.now.book body.now receipt }
    {
        let class = class_of(body).number();
        match target_of(body) {
            Some(to) => self.due_of(&[class, to.number()], receipt),
            None => self.due_of(&[class], receipt),
        }
    }
}

/// Whether the day is one of the calendar's.
fn lists_day(listing: &Calendar, day: Day) -> bool
    ensures { result ≡ lists_day listing.now day }
{
    listing.moment_of(day).is_some()
}

/// Whether the moment is one of the calendar's.
fn prices_at(listing: &Calendar, moment: Moment) -> bool
    ensures { result ≡ prices_at moment listing.now }
{
    listing.date_of(moment).is_some()
}

/// Whether a sheet of the moment lists the class.
fn is_listed_at(class: u32, moment: Moment, sheet: &Sheet) -> bool
    ensures { result ≡ lists_at class moment sheet.now }
{
    sheet.moment == moment && lists_class(sheet.prices.as_slice(), class)
}

/// The least other class of a class's family that has another calendar or schedule.
pub(crate) fn family_fault(inquiry: &Inquiry, form: &ClassForm) -> Option<u32>
    ensures { result ≡ family_fault (terms_of form.now) (map terms_of inquiry.now.book.classes) }
{
    let mut least = None;
    for place in 0..inquiry.classes() {
        least = inquiry.with_class_at(least, form, place);
    }
    least
}

// Whether one was found, or the class at a place is one of the calendar with a dividend declared at the moment.
fn found_at(inquiry: &Inquiry, found: bool, calendar: u32, moment: Moment, place: usize) -> bool
    ensures { result ≡ (found || option_map_or (class_declares inquiry.now.book.rates.declared
        calendar moment) (slice_get inquiry.now.book.classes place) false) }
{
    found || inquiry.declares_at(calendar, moment, place)
}

/// Whether a class of the calendar has a dividend declared at the moment.
fn declares_in(inquiry: &Inquiry, calendar: u32, moment: Moment) -> bool
    ensures declared { result ≡ list_any (class_declares
        inquiry.now.book.rates.declared calendar moment) inquiry.now.book.classes }
    ensures once { (n : ℕ) → AtMostOne (is_class n) inquiry.now.book.classes }
{
    let mut found = false;
    for place in 0..inquiry.classes() {
        found = found_at(inquiry, found, calendar, moment, place);
    }
    found
}

/// Whether a dividend of one of the calendar's classes is declared at the moment.
pub(crate) fn is_declared_in(inquiry: &Inquiry, calendar: Identifier, moment: Moment) -> bool
    ensures { result ≡ list_any (is_declared_in inquiry.now.book calendar moment)
        inquiry.now.book.rates.declared }
{
    declares_in(inquiry, calendar.number(), moment)
}

/// The least class so far that differs in the family, and one class more.
fn with_differing(least: Option<u32>, form: &ClassForm, other: &ClassForm) -> Option<u32>
    ensures { result ≡ with_differing (terms_of form.now) least (terms_of other.now) }
{
    if !differs_in_family(form, other) {
        return least;
    }
    match least {
        Some(least) => Some(least.min(other.class.number())),
        None => Some(other.class.number()),
    }
}

/// Whether another class of the family has another calendar or schedule.
fn differs_in_family(form: &ClassForm, other: &ClassForm) -> bool
    ensures { result ≡ differs_in_family (terms_of form.now) (terms_of other.now) }
{
    form.family != 0
        && other.family == form.family
        && other.class.number() != form.class.number()
        && (other.calendar.number() != form.calendar.number()
            || other.deferred.as_slice() != form.deferred.as_slice())
}

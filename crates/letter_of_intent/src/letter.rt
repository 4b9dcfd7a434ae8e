//! A letter of intent: its rate, its escrow, and how it ends.
ghost use Rattle.std.specs.Prelude.{ℕ, ◌≡◌, ◌↔◌, ◌+◌, ◌-◌, min, ◌<◌, ◌≤◌, ◌^◌, Some, false, if◌then◌else◌, IsTrue};
ghost use Rattle.money_units.specs.Rounding.{ceil_div};
ghost use Rattle.fund_calendar.specs.Dates.{months_later, date_of};
ghost use Rattle.letter_of_intent.specs.Letters as spec;
ghost use Rattle.letter_of_intent.specs.Cases.{becomes, Bought, Priced, Stands, Reached, Expired};

use class_terms::Terms;
use fund_calendar::{Day, add_months};
use money_units::{Bps, Cents, Mils, Nav, ceil_div, half};
use offering_price::bracket;

/// How many months a letter stays open.
const MONTHS: u16 = 13;

/// A letter of intent of one account and class, an arrangement that reduces the load (Form N-1A, Item 12(a)): its
/// amount in cents, the day on which it began, the household's credit in cents on that day, the rate of its amount in
/// basis points, the cents for which shares are still to be held, and the cents of the purchases noted so far.
#[derive(Clone, Copy, Debug, PartialEq, Eq)]
pub struct Letter {
    pub amount: Cents,
    pub day: Day,
    pub start: u128,
    pub rate: Bps,
    pub rest: Cents,
    pub bought: Cents,
}

/// What follows from a purchase: how many mils of its lot are held, and whether the letter's amount is reached, so that
/// the letter ends and all held mils become loose.
#[derive(Clone, Copy, Debug, PartialEq, Eq)]
pub struct Noted {
    pub hold: Mils,
    pub reached: bool,
}

/// How a letter ends by date: the cents of load that its purchases missed, the held mils that are paid for it, the
/// cents that these bring, and the cents that are waived.
#[derive(Clone, Copy, Debug, PartialEq, Eq)]
pub struct Settlement {
    pub due: Cents,
    pub paid: Mils,
    pub cash: Cents,
    pub waived: Cents,
}

impl Letter {
    /// The letter that begins on a day, for an amount in cents, when the household's credit is `start` cents. Shares
    /// for a twentieth of the amount are to be held.
    pub fn begin(amount: Cents, day: Day, start: u128, terms: &Terms) -> Letter
        ensures letter { result ≡ spec.new_letter amount day start terms.now.front }
        ensures limits { 1 ≤ amount → amount ≤ 1000000000000 → start ≤ 10 ^ 21
            → spec.IsLetter result }
    {
        Letter {
            amount,
            day,
            start,
            rate: bracket(terms, u128::from(amount.0)),
            rest: escrow(amount),
            bought: Cents(0),
        }
    }

    /// Notes a purchase of `gross` cents, which bought so many mils at an offering price in cents.
    pub fn note_purchase(&mut self, gross: Cents, price: Cents, mils: Mils) -> Noted
        requires limits { spec.IsLetter self.old }
        requires gross_within { (1 ≤ gross) × (gross ≤ 1000000000000) }
        requires price { 1 ≤ price }
        ensures noted { result ≡ spec.note_of_purchase self.old gross price mils }
        ensures letter { self.new ≡ spec.after_purchase self.old gross price mils }
        ensures case { becomes self.old
            (Bought (record { gross = gross; price = price; mils = mils }))
            ≡ (if result.reached then Reached self.new else Stands self.new) }
        ensures bought { self.new.bought ≡ self.old.bought + gross }
        ensures reached { IsTrue result.reached ↔ (self.old.amount ≤ self.new.bought) }
        ensures held { result.hold ≤ mils }
        ensures rest_falls { self.new.rest ≤ self.old.rest }
        ensures stays { result.reached ≡ false → spec.IsLetter self.new }
    {
        let hold = self.mils_to_hold(price, mils);
        self.rest = self.rest_after(price, hold);
        self.bought = Cents(self.bought.0 + gross.0);
        Noted {
            hold,
            reached: self.amount <= self.bought,
        }
    }

    /// Whether the letter has ended by date on this day: it is past the day 13 months after the letter's. Where that
    /// would be past 2199-12-31, no day is.
    pub fn expired(&self, day: Day) -> bool
        ensures expired { result ≡ spec.has_expired self.now day }
        ensures case { becomes self.now (Priced day)
            ≡ (if result then Expired self.now else Stands self.now) }
        ensures past { (last : ℕ) → spec.last_day self.now ≡ Some last
            → (IsTrue result ↔ (last < day)) }
        ensures never { 2199 < (months_later (date_of self.now.day) 13).year → result ≡ false }
    {
        match add_months(self.day, MONTHS) {
            Some(last) => last < day,
            None => false,
        }
    }

    /// What the end by date brings at this NAV, when so many mils are held: the load that the purchases missed, by the
    /// rate that they and the credit have earned, is paid from the held mils as far as these go.
    pub fn settle(&self, terms: &Terms, nav: Nav, held: Mils) -> Settlement
        requires limits { spec.IsLetter self.now }
        ensures settlement { result ≡ spec.settlement terms.now.front self.now nav held }
        ensures whole { result.cash + result.waived ≡ result.due }
        ensures within { result.paid ≤ held }
        ensures ceiling { result.due ≤ 85000000000 }
    {
        let due = self.load_due(terms);
        let paid = mils_to_pay(due, nav, held);
        let cash = cash_paid(due, nav, paid);
        Settlement {
            due,
            paid,
            cash,
            waived: Cents(due.0 - cash.0),
        }
    }

    /// How many mils of a lot are held at an offering price.
    fn mils_to_hold(&self, price: Cents, mils: Mils) -> Mils
        requires limits { spec.IsLetter self.now }
        requires price { 1 ≤ price }
        ensures value { result ≡ spec.mils_to_hold self.now price mils }
    {
        let cover = ceil_div(1000 * u128::from(self.rest.0), u128::from(price.0));
        Mils(cover.min(u128::from(mils.0)) as u64)
    }

    /// The cents for which shares are still to be held when these mils are.
    fn rest_after(&self, price: Cents, hold: Mils) -> Cents
        ensures value { result ≡ self.now.rest - min self.now.rest (spec.cost_at price hold) }
    {
        let cost = u128::from(hold.0) * u128::from(price.0) / 1000;
        let covered = cost.min(u128::from(self.rest.0));
        Cents(self.rest.0 - covered as u64)
    }

    /// The load that the purchases missed.
    fn load_due(&self, terms: &Terms) -> Cents
        requires limits { spec.IsLetter self.now }
        ensures value { result ≡ spec.load_due terms.now.front self.now }
        ensures bound { result ≤ 85000000000 }
    {
        let missed = self.rate_earned(terms).0 - self.rate.0;
        let due = half(u128::from(self.bought.0) * u128::from(missed), 10_000);
        Cents(due as u64)
    }

    /// The rate that the purchases have earned, and no lower one than the letter's.
    fn rate_earned(&self, terms: &Terms) -> Bps
        requires limits { spec.IsLetter self.now }
        ensures value { result ≡ spec.rate_earned terms.now.front self.now }
        ensures least { self.now.rate ≤ result }
        ensures ceiling { result ≤ 850 }
    {
        let earned = bracket(terms, self.start + u128::from(self.bought.0));
        earned.max(self.rate)
    }
}

/// A twentieth of the amount, rounded up.
fn escrow(amount: Cents) -> Cents
    ensures { result ≡ ceil_div amount 20 }
{
    Cents(ceil_div(u128::from(amount.0), 20) as u64)
}

/// How many of the held mils pay what is due.
fn mils_to_pay(due: Cents, nav: Nav, held: Mils) -> Mils
    requires { due ≤ 85000000000 }
    ensures value { result ≡ spec.mils_to_pay due nav held }
    ensures within { result ≤ held }
    ensures bound { result ≤ 85000000000000 }
{
    let cover = ceil_div(1000 * u128::from(due.0), u128::from(nav.cents()));
    Mils(cover.min(u128::from(held.0)) as u64)
}

/// What the paid mils bring, and no more than is due.
fn cash_paid(due: Cents, nav: Nav, paid: Mils) -> Cents
    requires { paid ≤ 85000000000000 }
    ensures value { result ≡ spec.cash_paid due nav paid }
    ensures within { result ≤ due }
{
    let value = half(u128::from(paid.0) * u128::from(nav.cents()), 1000);
    Cents(value.min(u128::from(due.0)) as u64)
}

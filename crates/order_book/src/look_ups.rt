//! What the book gives of its journal.
ghost use Rattle.std.specs.Prelude.{◌≡◌, ◌==◌, ℕ, None, length, slice_get, position, find, count_by, option_and_then};
ghost use Rattle.std.specs.Option.{option_copied};
ghost use Rattle.order_book.specs.Brought.{brings};
ghost use Rattle.register_laws.specs.Identities.{is_calendar, is_household};
ghost use Rattle.register_machine.specs.journal.Kinds.{account_in, account_numbered, accounts_of, calendar_in, calendars_of, class_in, class_numbered, classes_of, dealer_in, dealer_numbered, dealers_of, dividend_in, household_in, households_of};
ghost use Rattle.register_machine.specs.pricing.DividendRates.{declares, rate_at, rates_of};
ghost use Rattle.register_machine.specs.rules.Limits.{is_of_account};

use crate::book::OrderBook;
use crate::identity::Identity;
use crate::kinds::{account_in, calendar_in, class_in, dealer_in, dividend_in, household_in};
use agent_events::{AccountForm, CalendarForm, ClassForm, DealerForm, DividendForm, HouseholdForm};
use money_units::Moment;

impl OrderBook {
    /// The calendar of this number; `None` exactly where there is none.
    pub fn calendar(&self, number: u32) -> Option<&CalendarForm>
        ensures { option_copied result ≡ find (is_calendar number) (calendars_of self.now.journal) }
    {
        match self.brought(Identity::Calendar(number)) {
            Some(event) => calendar_in(event.kind()),
            None => None,
        }
    }

    /// The class of this number; `None` exactly where there is none.
    pub fn class(&self, number: u32) -> Option<&ClassForm>
        ensures { option_copied result ≡ class_numbered (classes_of self.now.journal) number }
    {
        match self.brought(Identity::Class(number)) {
            Some(event) => class_in(event.kind()),
            None => None,
        }
    }

    /// The dealer of this number; `None` exactly where there is none.
    pub fn dealer(&self, number: u32) -> Option<&DealerForm>
        ensures { option_copied result ≡ dealer_numbered (dealers_of self.now.journal) number }
    {
        match self.brought(Identity::Dealer(number)) {
            Some(event) => dealer_in(event.kind()),
            None => None,
        }
    }

    /// The household of this number; `None` exactly where there is none.
    pub fn household(&self, number: u32) -> Option<&HouseholdForm>
        ensures { option_copied result
            ≡ find (is_household number) (households_of self.now.journal) }
    {
        match self.brought(Identity::Household(number)) {
            Some(event) => household_in(event.kind()),
            None => None,
        }
    }

    /// The account of this number; `None` exactly where there is none.
    pub fn account(&self, number: u32) -> Option<&AccountForm>
        ensures { option_copied result ≡ account_numbered (accounts_of self.now.journal) number }
    {
        match self.brought(Identity::Account(number)) {
            Some(event) => account_in(event.kind()),
            None => None,
        }
    }

    /// The dividend of a class at a pricing moment, as it was declared.
    pub fn dividend(&self, class: u32, moment: Moment) -> Option<&DividendForm>
        ensures { option_copied result
            ≡ find (declares class moment) (rates_of self.now.journal).declared }
    {
        match self.brought(Identity::Dividend { class, moment }) {
            Some(event) => dividend_in(event.kind()),
            None => None,
        }
    }

    /// The dividend rate of a class at a pricing moment, as corrected, in millionths of a dollar per share; 0 for none.
    pub fn rate(&self, class: u32, moment: Moment) -> u64
        ensures { result ≡ rate_at (rates_of self.now.journal) class moment }
    {
        match self.last_rate(class, moment) {
            Some(rate) => rate,
            None => match self.dividend(class, moment) {
                Some(form) => form.rate.millionths(),
                None => 0,
            },
        }
    }
}

//! The facts that a step reads, and the sheet at hand.
ghost use Rattle.std.specs.Prelude.{◌≡◌, ◌≤◌, Some};
ghost use Rattle.forward_price.specs.PriceTables.{price_before, sheet_numbered};
ghost use Rattle.forward_price.specs.Sheets.{lists_class};
ghost use Rattle.register_machine.specs.pricing.CorrectedBook.{counts, front_of, schedule_of};
ghost use Rattle.register_machine.specs.pricing.DividendRates.{rate_at};
ghost use Rattle.register_machine.specs.journal.Kinds.{household_of};
ghost use Rattle.register_machine.specs.replay.Trades.{nav_of};
ghost use Rattle.household_fold.specs.Facts.{FactsFit, IsListed, book_of_facts, sheet_at_hand, sheets_known};

use crate::look_ups;
use agent_events::{AccountRow, Rates};
use class_terms::{Terms, TermsTable};
use forward_price::{Patch, PriceBook, Sheet, lists_class};
use fund_calendar::Day;
use money_units::{Moment, Nav};
use std::marker::Model;

/// What a step reads: the published prices, the terms of the classes by number, the accounts by number, the dividend rates
/// by class and moment, a correction of one price on trial, and the number of the sheet at hand.
///
/// Contracts see what is known; `book_of_facts` is the corrected book that it gives, and `sheet_at_hand` the sheet with the
/// correction on trial.
#[derive(Drop)]
pub struct Facts<'a> {
    pub prices: &'a PriceBook,
    pub terms: &'a TermsTable,
    pub accounts: &'a [AccountRow],
    pub rates: &'a Rates,
    pub patch: Option<Patch>,
    pub sheet: u32,
}

impl<'a> Model for Facts<'a> {
    ghost use Rattle.household_fold.specs.Facts.{Known};

    ghost Value = { Known };

    ghost view = { λ facts. record {
      table = facts.prices.now.table;
      terms = facts.terms.now;
      accounts = facts.accounts.now;
      rates = facts.rates.now;
      patch = facts.patch;
      sheet = facts.sheet;
    } };
}

impl<'a> Facts<'a> {
    /// The sheet at hand as it was published, without the correction on trial.
    pub(crate) fn published(&self) -> &Sheet
        requires { FactsFit self.now }
        ensures { Some result.now ≡ sheet_numbered self.now.table.sheets self.now.sheet }
    {
        match self.prices.sheet(self.sheet) {
            Some(sheet) => sheet,
            None => unreachable!(),
        }
    }

    /// The number of the sheet at hand.
    pub(crate) fn number(&self) -> u32
        requires { FactsFit self.now }
        ensures { result ≡ (sheet_at_hand self.now).number }
    {
        self.published().number
    }

    /// The date of the sheet at hand.
    pub(crate) fn day(&self) -> Day
        requires { FactsFit self.now }
        ensures { result ≡ (sheet_at_hand self.now).day }
    {
        self.published().day
    }

    /// The moment of the sheet at hand.
    pub(crate) fn moment(&self) -> Moment
        requires { FactsFit self.now }
        ensures { result ≡ (sheet_at_hand self.now).moment }
    {
        self.published().moment
    }

    /// Whether the sheet at hand lists a class.
    pub(crate) fn lists(&self, class: u32) -> bool
        requires { FactsFit self.now }
        ensures { result ≡ lists_class (sheet_at_hand self.now).prices class }
    {
        lists_class(self.published().prices.as_slice(), class)
    }

    /// The net asset value of a class that the sheet at hand lists, under the correction on trial.
    pub(crate) fn nav(&self, class: u32) -> Nav
        requires facts { FactsFit self.now }
        requires listed { IsListed self.now class }
        ensures { result ≡ nav_of (sheet_at_hand self.now) class }
    {
        match self.prices.price(self.patch, self.sheet, class) {
            Some(nav) => nav,
            None => unreachable!(),
        }
    }

    /// The last net asset value of a class before the sheet at hand; `None` exactly where there is none.
    pub(crate) fn last_price(&self, class: u32) -> Option<Nav>
        requires { FactsFit self.now }
        ensures { result ≡ price_before (sheets_known self.now) class
            (sheet_at_hand self.now).moment }
    {
        self.prices.last_before(self.patch, class, self.moment())
    }

    /// The terms of a class that the sheet at hand lists.
    pub(crate) fn terms_of(&self, class: u32) -> &Terms
        requires facts { FactsFit self.now }
        requires listed { IsListed self.now class }
        ensures front { result.now.front ≡ front_of (book_of_facts self.now) class }
        ensures schedule { result.now.deferred ≡ schedule_of (book_of_facts self.now) class }
    {
        match look_ups::terms_numbered(self.terms.as_slice(), class) {
            Some(terms) => terms,
            None => unreachable!(),
        }
    }

    /// Whether the shares of a class count towards the breakpoints of their household.
    pub(crate) fn counts(&self, class: u32) -> bool
        requires { FactsFit self.now }
        ensures { result ≡ counts (book_of_facts self.now) class }
    {
        match look_ups::terms_numbered(self.terms.as_slice(), class) {
            Some(terms) => terms.counts(),
            None => false,
        }
    }

    /// The household of an account; `None` exactly where there is no such account.
    pub(crate) fn household(&self, account: u32) -> Option<u32>
        requires { FactsFit self.now }
        ensures { result ≡ household_of (book_of_facts self.now).accounts account }
    {
        match look_ups::account_numbered(self.accounts, account) {
            Some(row) => Some(row.household),
            None => None,
        }
    }

    /// The dividend rate of a class on the sheet at hand in millionths of a dollar per share, 0 for none.
    pub(crate) fn rate(&self, class: u32) -> u64
        requires { FactsFit self.now }
        ensures value { result ≡ rate_at (book_of_facts self.now).rates class
            (sheet_at_hand self.now).moment }
        ensures most { result ≤ 1000000000 }
    {
        match look_ups::rate_numbered(self.rates.as_slice(), class, self.moment()) {
            Some(row) => row.rate,
            None => 0,
        }
    }
}

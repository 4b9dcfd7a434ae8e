//! The tables by number.
ghost use Rattle.std.specs.Prelude.{◌≡◌, true, AllPairs, ◌<◌, IfOk};
ghost use Rattle.agent_events.specs.declared.event.EventKind.{EventKind as Kind};
ghost use Rattle.std.specs.Option.{option_copied};
ghost use Rattle.household_fold.specs.Facts.{rate_stands_before, row_numbered, terms_numbered};
ghost use Rattle.reference_tables.specs.TableChanges.{CanTake, tables_with};
ghost use Rattle.register_laws.specs.LawfulLimits.{has_good_loads};
ghost use Rattle.reference_tables.specs.Tables.{IsInRange, brings_good_loads, no_tables, row_of_fix, tables_after, with_fixed_rate};

use crate::places::{Accounts, put_account, put_dividend, put_fixed_rate, put_terms};
use crate::room::Room;
use crate::rows::{row_of_account, row_of_dividend, row_of_fix, terms_of};
use crate::table_change::TableChange;
use agent_events::{AccountForm, AccountRow, ClassForm, EventKind, FixRateForm, Rates};
use class_terms::{Terms, TermsTable};
use household_fold::look_ups::{account_numbered, terms_numbered};
use money_units::{List, NoMemory};
use std::alloc::Global;
use std::marker::Model;

/// The terms of the classes, the accounts and the dividend rates, each by number, kept from event to event.
#[derive(Drop)]
pub struct JournalTables {
    terms: TermsTable,
    accounts: Accounts,
    rates: Rates,
}

impl Model for JournalTables {
    ghost use Rattle.reference_tables.specs.Tables.{StandByNumber, Tables};

    ghost Value = { Tables };

    ghost view = { λ tables. record {
      terms = tables.terms;
      accounts = tables.accounts;
      rates = tables.rates;
    } };

    ghost invariant = { λ tables. StandByNumber
        (record { terms = tables.terms; accounts = tables.accounts; rates = tables.rates }) };
}

impl JournalTables {
    /// Empty tables, which take no memory yet.
    pub fn new(alloc: Global) -> JournalTables
        ensures { result ≡ no_tables }
    {
        JournalTables {
            terms: List::new(alloc),
            accounts: List::new(alloc),
            rates: List::new(alloc),
        }
    }

    /// The terms of the classes by number.
    pub fn terms(&self) -> &TermsTable
        ensures value { result.now ≡ self.now.terms }
        ensures rise { AllPairs (λ a b. a.class < b.class) result.now }
    {
        &self.terms
    }

    /// The accounts by number.
    pub fn accounts(&self) -> &[AccountRow]
        ensures value { result.now ≡ self.now.accounts }
        ensures rise { AllPairs (λ a b. a.account < b.account) result.now }
    {
        self.accounts.as_slice()
    }

    /// The dividend rates by class and moment.
    pub fn rates(&self) -> &Rates
        ensures value { result.now ≡ self.now.rates }
        ensures rise { AllPairs (λ a b. rate_stands_before b.class b.moment a ≡ true) result.now }
    {
        &self.rates
    }

    /// The terms of a class.
    pub fn class(&self, number: u32) -> Option<&Terms>
        ensures { option_copied result ≡ terms_numbered self.now.terms number }
    {
        terms_numbered(self.terms.as_slice(), number)
    }

    /// The row of an account, which names its household and its dealer.
    pub fn account(&self, number: u32) -> Option<AccountRow>
        ensures { result ≡ row_numbered self.now.accounts number }
    {
        account_numbered(self.accounts.as_slice(), number)
    }

    /// A copy of the dividend rates with a corrected one, for its trial.
    pub fn rates_with(&self, alloc: Global, form: &FixRateForm) -> Result<Rates, NoMemory>
        ensures { IfOk result (λ rates. rates
            ≡ with_fixed_rate self.now.rates (row_of_fix form.now)) }
    {
        let mut rates: Rates = List::from_slice(alloc, self.rates.as_slice())?;
        let room = Room::new(alloc, rates.len())?;
        put_fixed_rate(&mut rates, room, row_of_fix(form));
        Ok(rates)
    }

    /// What an event changes in the tables, with the memory for it. The tables stay as they are.
    pub fn prepare(&self, alloc: Global, kind: &EventKind) -> Result<TableChange, NoMemory>
        requires { brings_good_loads kind.now ≡ true }
        ensures change { IfOk result (λ change. tables_with self.now change
            ≡ tables_after self.now kind.now) }
        ensures room { IfOk result (CanTake self.now) }
        ensures range { IsInRange kind.now }
    {
        ranges(kind);
        match kind {
            EventKind::Class(form) => self.prepare_class(alloc, form),
            EventKind::Account(form) => self.prepare_account(alloc, form),
            EventKind::Dividend(form) => {
                let room = Room::new(alloc, self.rates.len())?;
                Ok(TableChange::Dividend(row_of_dividend(form), room))
            }
            EventKind::FixRate(form) => {
                let room = Room::new(alloc, self.rates.len())?;
                Ok(TableChange::FixedRate(row_of_fix(form), room))
            }
            EventKind::Calendar(_) => Ok(TableChange::Nothing),
            EventKind::Close(_) => Ok(TableChange::Nothing),
            EventKind::Dealer(_) => Ok(TableChange::Nothing),
            EventKind::Household(_) => Ok(TableChange::Nothing),
            EventKind::Order(_) => Ok(TableChange::Nothing),
            EventKind::Cancel(_) => Ok(TableChange::Nothing),
            EventKind::Sheet(_) => Ok(TableChange::Nothing),
            EventKind::FixPrice(_) => Ok(TableChange::Nothing),
            EventKind::Enter(_) => Ok(TableChange::Nothing),
            EventKind::Replace(_) => Ok(TableChange::Nothing),
            EventKind::Void(_) => Ok(TableChange::Nothing),
        }
    }

    // The terms of a class, with the memory for them.
    fn prepare_class(&self, alloc: Global, form: &ClassForm) -> Result<TableChange, NoMemory>
        requires { has_good_loads form.now ≡ true }
        ensures change { IfOk result (λ change. tables_with self.now change
            ≡ tables_after self.now (Kind.Class form.now)) }
        ensures room { IfOk result (CanTake self.now) }
    {
        let terms = terms_of(alloc, form)?;
        let room = Room::new(alloc, self.terms.len())?;
        Ok(TableChange::Class(terms, room))
    }

    // The row of an account, with the memory for it.
    fn prepare_account(&self, alloc: Global, form: &AccountForm) -> Result<TableChange, NoMemory>
        ensures change { IfOk result (λ change. tables_with self.now change
            ≡ tables_after self.now (Kind.Account form.now)) }
        ensures room { IfOk result (CanTake self.now) }
    {
        let room = Room::new(alloc, self.accounts.len())?;
        Ok(TableChange::Account(row_of_account(form), room))
    }

    /// Puts the row of a change in its place, which takes no memory: a logarithm of the number of rows, and the move of those
    /// behind it; now and then the whole table moves into the memory of the change.
    pub fn note(&mut self, change: TableChange)
        requires { CanTake self.old change }
        ensures { self.new ≡ tables_with self.old change }
    {
        match change {
            TableChange::Nothing => {}
            TableChange::Class(terms, room) => put_terms(&mut self.terms, room, terms),
            TableChange::Account(row, room) => put_account(&mut self.accounts, room, row),
            TableChange::Dividend(row, room) => put_dividend(&mut self.rates, room, row),
            TableChange::FixedRate(row, room) => put_fixed_rate(&mut self.rates, room, row),
        }
    }
}

// The range of the rate of an event.
fn ranges(kind: &EventKind)
    ensures { IsInRange kind.now }
{
    match kind {
        EventKind::Dividend(form) => {
            let _rate = form.rate.millionths();
        }
        EventKind::FixRate(form) => {
            let _rate = form.rate.millionths();
        }
        _ => {}
    }
}

//! The rows that events bring.
ghost use Rattle.std.specs.Prelude.{◌≡◌, ◌≤◌, None, IfOk};
ghost use Rattle.class_terms.specs.Tables.{deferred_fault, front_fault};
ghost use Rattle.reference_tables.specs.Tables.{IsInRange, row_of_account, row_of_dividend, row_of_fix};
ghost use Rattle.register_machine.specs.rules.Terms.{terms_of};

use agent_events::{
    AccountForm, AccountRow, ClassForm, DividendForm, EventKind, FixRateForm, RateRow,
};
use class_terms::{Terms, TermsForm, TermsTable, check};
use money_units::{Cents, List, NoMemory};
use std::alloc::Global;

// A copy of the terms of a class as they were sent.
fn form_of(alloc: Global, form: &ClassForm) -> Result<TermsForm, NoMemory>
    ensures { IfOk result (λ terms. terms ≡ terms_of form.now) }
{
    Ok(TermsForm {
        class: form.class.number(),
        calendar: form.calendar.number(),
        fund: form.fund.number(),
        name: List::from_slice(alloc, form.name.as_slice())?,
        family: form.family,
        counts: form.counts,
        first_min: Cents(form.first_min.cents()),
        later_min: Cents(form.later_min.cents()),
        front: List::from_slice(alloc, form.front.as_slice())?,
        deferred: List::from_slice(alloc, form.deferred.as_slice())?,
    })
}

/// The terms of a class whose loads are good.
pub(crate) fn terms_of(alloc: Global, form: &ClassForm) -> Result<Terms, NoMemory>
    requires front { front_fault form.now.front ≡ None }
    requires deferred { deferred_fault form.now.deferred ≡ None }
    ensures { IfOk result (λ terms. terms ≡ terms_of form.now) }
{
    let sent = form_of(alloc, form)?;
    let others: TermsTable = List::new(alloc);
    match check(sent, others.as_slice()) {
        Ok(terms) => Ok(terms),
        Err(_) => unreachable!(),
    }
}

pub(crate) fn row_of_account(form: &AccountForm) -> AccountRow
    ensures { result ≡ row_of_account form.now }
{
    AccountRow {
        account: form.account.number(),
        household: form.household.number(),
        dealer: form.dealer,
    }
}

pub(crate) fn row_of_dividend(form: &DividendForm) -> RateRow
    ensures row { result ≡ row_of_dividend form.now }
    ensures most { result.rate ≤ 1000000000 }
{
    RateRow {
        class: form.class.number(),
        moment: form.moment,
        rate: form.rate.millionths(),
    }
}

pub(crate) fn row_of_fix(form: &FixRateForm) -> RateRow
    ensures row { result ≡ row_of_fix form.now }
    ensures most { result.rate ≤ 1000000000 }
{
    RateRow {
        class: form.class.number(),
        moment: form.moment,
        rate: form.rate.millionths(),
    }
}

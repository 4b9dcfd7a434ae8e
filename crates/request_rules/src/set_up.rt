//! The rules on calendars, classes, dealers, households and accounts.
ghost use Rattle.std.specs.Prelude.{◌≡◌};
ghost use Rattle.agent_events.specs.declared.request.Request.{Request};
ghost use Rattle.request_rules.specs.VerbRules.{rules_of};
ghost use Rattle.register_machine.specs.journal.Choices.{first_some};
ghost use Rattle.register_machine.specs.rules.NamedThings.{none_such};
ghost use Rattle.register_machine.specs.rules.Standing.{something_stands};

use crate::inquiry::{Inquiry, family_fault};
use crate::limits::{journal_full, too_many};
use crate::rules::{first_absent, first_broken};
use agent_events::{AccountForm, CalendarForm, ClassForm, DealerForm, HouseholdForm, Refusal};

/// The most calendars.
const MAX_CALENDARS: u32 = 16;

/// The most classes.
const MAX_CLASSES: u32 = 1_000;

/// The most dealers.
const MAX_DEALERS: u32 = 1_000;

/// The most households.
const MAX_HOUSEHOLDS: u32 = 100_000;

/// The most accounts of a household.
const MAX_ACCOUNTS: u32 = 64;

/// The number of the calendar is taken.
fn calendar_stands(inquiry: &Inquiry, form: &CalendarForm) -> Option<Refusal>
    ensures { result ≡ something_stands inquiry.now (Request.Calendar form.now) }
{
    if inquiry.has_calendar(form.calendar) {
        Some(Refusal::Stands(form.calendar.number()))
    } else {
        None
    }
}

/// The first rule behind the repeat that a calendar breaks.
pub(crate) fn broken_by_calendar(inquiry: &Inquiry, form: &CalendarForm) -> Option<Refusal>
    ensures { result ≡ first_some (rules_of inquiry.now (Request.Calendar form.now)) }
{
    first_broken(&[
        calendar_stands(inquiry, form),
        too_many(inquiry.calendars(), MAX_CALENDARS),
        journal_full(inquiry),
    ])
}

/// The number of the class is taken, or its family holds a class with another calendar or schedule.
fn class_stands(inquiry: &Inquiry, form: &ClassForm) -> Option<Refusal>
    ensures { result ≡ something_stands inquiry.now (Request.Class form.now) }
{
    if inquiry.has_class(form.class) {
        return Some(Refusal::Stands(form.class.number()));
    }
    match family_fault(inquiry, form) {
        Some(class) => Some(Refusal::Stands(class)),
        None => None,
    }
}

/// The first rule behind the repeat that a class breaks.
pub(crate) fn broken_by_class(inquiry: &Inquiry, form: &ClassForm) -> Option<Refusal>
    ensures { result ≡ first_some (rules_of inquiry.now (Request.Class form.now)) }
{
    first_broken(&[
        first_absent(&[(2, inquiry.has_calendar(form.calendar))]),
        class_stands(inquiry, form),
        too_many(inquiry.classes(), MAX_CLASSES),
        journal_full(inquiry),
    ])
}

/// The number or the key of the dealer is taken.
fn dealer_stands(inquiry: &Inquiry, form: &DealerForm) -> Option<Refusal>
    ensures { result ≡ something_stands inquiry.now (Request.Dealer form.now) }
{
    if inquiry.has_dealer(form.dealer.number()) {
        return Some(Refusal::Stands(form.dealer.number()));
    }
    match inquiry.holder_of_key(form.key.as_slice()) {
        Some(holder) => Some(Refusal::Stands(holder)),
        None => None,
    }
}

/// The first rule behind the repeat that a dealer breaks.
pub(crate) fn broken_by_dealer(inquiry: &Inquiry, form: &DealerForm) -> Option<Refusal>
    ensures { result ≡ first_some (rules_of inquiry.now (Request.Dealer form.now)) }
{
    first_broken(&[
        dealer_stands(inquiry, form),
        too_many(inquiry.dealers(), MAX_DEALERS),
        journal_full(inquiry),
    ])
}

/// The number or the key of the household is taken.
fn household_stands(inquiry: &Inquiry, form: &HouseholdForm) -> Option<Refusal>
    ensures { result ≡ something_stands inquiry.now (Request.Household form.now) }
{
    if inquiry.has_household(form.household) {
        return Some(Refusal::Stands(form.household.number()));
    }
    match inquiry.holder_of_key(form.key.as_slice()) {
        Some(holder) => Some(Refusal::Stands(holder)),
        None => None,
    }
}

/// The first rule behind the repeat that a household breaks.
pub(crate) fn broken_by_household(inquiry: &Inquiry, form: &HouseholdForm) -> Option<Refusal>
    ensures { result ≡ first_some (rules_of inquiry.now (Request.Household form.now)) }
{
    first_broken(&[
        household_stands(inquiry, form),
        too_many(inquiry.households(), MAX_HOUSEHOLDS),
        journal_full(inquiry),
    ])
}

/// The household or the dealer of the account isn't there.
fn account_absent(inquiry: &Inquiry, form: &AccountForm) -> Option<Refusal>
    ensures { result ≡ none_such inquiry.now (Request.Account form.now) }
{
    first_absent(&[
        (2, inquiry.has_household(form.household)),
        (3, form.dealer == 0 || inquiry.has_dealer(form.dealer)),
    ])
}

/// The number of the account is taken.
fn account_stands(inquiry: &Inquiry, form: &AccountForm) -> Option<Refusal>
    ensures { result ≡ something_stands inquiry.now (Request.Account form.now) }
{
    if inquiry.has_account(form.account) {
        Some(Refusal::Stands(form.account.number()))
    } else {
        None
    }
}

/// The first rule behind the repeat that an account breaks.
pub(crate) fn broken_by_account(inquiry: &Inquiry, form: &AccountForm) -> Option<Refusal>
    ensures { result ≡ first_some (rules_of inquiry.now (Request.Account form.now)) }
{
    first_broken(&[
        account_absent(inquiry, form),
        account_stands(inquiry, form),
        too_many(inquiry.accounts_in(form.household), MAX_ACCOUNTS),
        journal_full(inquiry),
    ])
}

//! The fields of an event, where it is of a kind.
ghost use Rattle.std.specs.Prelude.{◌≡◌};
ghost use Rattle.std.specs.Option.{option_copied};
ghost use Rattle.register_machine.specs.journal.Kinds.{account_in, calendar_in, class_in, dealer_in, dividend_in, household_in};

use agent_events::{
    AccountForm, CalendarForm, ClassForm, DealerForm, DividendForm, EventKind, HouseholdForm,
};

pub(crate) fn calendar_in(kind: &EventKind) -> Option<&CalendarForm>
    ensures { option_copied result ≡ calendar_in kind.now }
{
    match kind {
        EventKind::Calendar(form) => Some(form),
        _ => None,
    }
}

pub(crate) fn class_in(kind: &EventKind) -> Option<&ClassForm>
    ensures { option_copied result ≡ class_in kind.now }
{
    match kind {
        EventKind::Class(form) => Some(form),
        _ => None,
    }
}

pub(crate) fn dealer_in(kind: &EventKind) -> Option<&DealerForm>
    ensures { option_copied result ≡ dealer_in kind.now }
{
    match kind {
        EventKind::Dealer(form) => Some(form),
        _ => None,
    }
}

pub(crate) fn household_in(kind: &EventKind) -> Option<&HouseholdForm>
    ensures { option_copied result ≡ household_in kind.now }
{
    match kind {
        EventKind::Household(form) => Some(form),
        _ => None,
    }
}

pub(crate) fn account_in(kind: &EventKind) -> Option<&AccountForm>
    ensures { option_copied result ≡ account_in kind.now }
{
    match kind {
        EventKind::Account(form) => Some(form),
        _ => None,
    }
}

pub(crate) fn dividend_in(kind: &EventKind) -> Option<&DividendForm>
    ensures { option_copied result ≡ dividend_in kind.now }
{
    match kind {
        EventKind::Dividend(form) => Some(form),
        _ => None,
    }
}

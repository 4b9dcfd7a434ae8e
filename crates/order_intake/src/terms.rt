//! Refusal 2, behind the form: a calendar's zone, dates and moments, and the loads of a class.
ghost use Rattle.std.specs.Prelude.{◌≡◌, IfOk};
ghost use Rattle.agent_events.specs.Calendars.{calendar_checked};
ghost use Rattle.order_intake.specs.TermPlaces.{loads_place, place_checked};
ghost use Rattle.register_machine.specs.rules.Situations.{Situation};
ghost use Rattle.register_machine.specs.rules.Terms.{bad_terms, calendar_place};

use agent_events::{CalendarForm, ClassForm, Copied, Refusal, Request};
use class_terms::{TermFault, Terms, TermsForm, check};
use fund_calendar::CalendarFault;
use money_units::{Cents, List, NoMemory};
use std::alloc::Global;

/// The place of what makes no calendar.
fn calendar_place(alloc: Global, form: &CalendarForm) -> Result<Option<Refusal>, NoMemory>
    ensures { IfOk result (λ place. place ≡ calendar_place (calendar_checked form.now)) }
{
    match form.listed(alloc) {
        Ok(_) => Ok(None),
        Err(CalendarFault::BadZone) => Ok(Some(Refusal::BadForm(2))),
        Err(CalendarFault::BadSpan) => Ok(Some(Refusal::BadForm(5))),
        Err(CalendarFault::NotRising(_)) => Ok(Some(Refusal::BadForm(3))),
        Err(CalendarFault::NoMemory) => Err(NoMemory),
    }
}

/// The place of the loads that aren't good; a family that differs is passed over.
fn place_checked(checked: &Result<Terms, TermFault>) -> Option<Refusal>
    ensures { result ≡ place_checked checked.now }
{
    match checked {
        Ok(_) => None,
        Err(TermFault::BadFront(_)) => Some(Refusal::BadForm(9)),
        Err(TermFault::BadDeferred(_)) => Some(Refusal::BadForm(10)),
        Err(TermFault::FamilyDiffers(_)) => None,
    }
}

/// The place of the loads that aren't good.
fn loads_place(alloc: Global, form: &ClassForm) -> Result<Option<Refusal>, NoMemory>
    ensures { IfOk result (λ place. place ≡ loads_place form.now) }
{
    let terms = TermsForm {
        class: form.class.number(),
        calendar: form.calendar.number(),
        fund: form.fund.number(),
        name: List::new(alloc),
        family: form.family,
        counts: form.counts,
        first_min: Cents(form.first_min.cents()),
        later_min: Cents(form.later_min.cents()),
        front: List::from_slice(alloc, form.front.as_slice())?,
        deferred: form.deferred.copy(alloc)?,
    };
    Ok(place_checked(&check(terms, &[])))
}

/// Refusal 2. The terms of a calendar or a class aren't good.
pub(crate) fn bad_terms(alloc: Global, request: &Request) -> Result<Option<Refusal>, NoMemory>
    ensures { IfOk result (λ place. (situation : Situation) → place
        ≡ bad_terms situation request.now) }
{
    match request {
        Request::Calendar(form) => calendar_place(alloc, form),
        Request::Class(form) => loads_place(alloc, form),
        _ => Ok(None),
    }
}

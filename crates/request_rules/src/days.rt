//! The rules on closures, sheets and dividends.
ghost use Rattle.std.specs.Prelude.{◌≡◌};
ghost use Rattle.agent_events.specs.declared.request.Request.{Request};
ghost use Rattle.request_rules.specs.VerbRules.{rules_of};
ghost use Rattle.register_machine.specs.journal.Choices.{first_some};
ghost use Rattle.register_machine.specs.rules.NamedThings.{none_such};
ghost use Rattle.register_machine.specs.rules.Sheets.{incomplete, out_of_turn, too_soon};
ghost use Rattle.register_machine.specs.rules.Standing.{is_used_moment, something_stands};

use crate::inquiry::{Inquiry, is_declared_in};
use crate::limits::journal_full;
use crate::rules::{first_absent, first_broken};
use agent_events::{CloseForm, DividendForm, Identifier, Refusal, SheetForm};
use forward_price::PublishFault;
use money_units::Moment;

/// The calendar or its pricing day isn't there.
fn close_absent(inquiry: &Inquiry, form: &CloseForm) -> Option<Refusal>
    ensures { result ≡ none_such inquiry.now (Request.Close form.now) }
{
    first_absent(&[
        (1, inquiry.has_calendar(form.calendar)),
        (2, inquiry.has_day(form.calendar, form.day)),
    ])
}

/// Whether the pricing moment has its sheet, or a dividend.
fn is_used_moment(inquiry: &Inquiry, calendar: Identifier, moment: Moment) -> bool
    ensures { result ≡ is_used_moment inquiry.now.book calendar moment }
{
    inquiry.is_published(calendar, moment) || is_declared_in(inquiry, calendar, moment)
}

/// The day to close has its sheet or a dividend.
fn close_stands(inquiry: &Inquiry, form: &CloseForm) -> Option<Refusal>
    ensures { result ≡ something_stands inquiry.now (Request.Close form.now) }
{
    match inquiry.moment_on(form.calendar, form.day) {
        Some(moment) => {
            if is_used_moment(inquiry, form.calendar, moment) {
                Some(Refusal::Stands(form.calendar.number()))
            } else {
                None
            }
        }
        None => None,
    }
}

/// The first rule behind the repeat that a closure breaks.
pub(crate) fn broken_by_close(inquiry: &Inquiry, form: &CloseForm) -> Option<Refusal>
    ensures { result ≡ first_some (rules_of inquiry.now (Request.Close form.now)) }
{
    first_broken(&[
        close_absent(inquiry, form),
        close_stands(inquiry, form),
        journal_full(inquiry),
    ])
}

/// Refusal 12. The sheet isn't the expected one.
fn out_of_turn(fault: &Option<PublishFault>) -> Option<Refusal>
    ensures { result ≡ out_of_turn fault.now }
{
    match fault {
        Some(PublishFault::SheetOutOfTurn(moment, calendar)) => {
            Some(Refusal::SheetOutOfTurn(*moment, *calendar))
        }
        _ => None,
    }
}

/// Refusal 13. The sheet's list isn't complete.
fn incomplete(fault: &Option<PublishFault>) -> Option<Refusal>
    ensures { result ≡ incomplete fault.now }
{
    match fault {
        Some(PublishFault::SheetIncomplete(class)) => Some(Refusal::SheetIncomplete(*class)),
        _ => None,
    }
}

/// Refusal 18. The sheet's moment is to come.
fn too_soon(fault: &Option<PublishFault>) -> Option<Refusal>
    ensures { result ≡ too_soon fault.now }
{
    match fault {
        Some(PublishFault::TooSoon(moment)) => Some(Refusal::TooSoon(*moment)),
        _ => None,
    }
}

/// The first rule behind the repeat that a sheet breaks.
pub(crate) fn broken_by_sheet(inquiry: &Inquiry, form: &SheetForm) -> Option<Refusal>
    ensures { result ≡ first_some (rules_of inquiry.now (Request.Sheet form.now)) }
{
    let fault = inquiry.sheet_fault(form);
    first_broken(&[
        first_absent(&[(1, inquiry.has_calendar(form.calendar))]),
        out_of_turn(&fault),
        incomplete(&fault),
        too_soon(&fault),
        journal_full(inquiry),
    ])
}

/// The class of the dividend or its pricing moment isn't there.
fn dividend_absent(inquiry: &Inquiry, form: &DividendForm) -> Option<Refusal>
    ensures { result ≡ none_such inquiry.now (Request.Dividend form.now) }
{
    first_absent(&[
        (1, inquiry.has_class(form.class)),
        (2, inquiry.has_moment(form.class, form.moment)),
    ])
}

/// The dividend stands with another rate, or its sheet is published.
fn dividend_stands(inquiry: &Inquiry, form: &DividendForm) -> Option<Refusal>
    ensures { result ≡ something_stands inquiry.now (Request.Dividend form.now) }
{
    if inquiry.is_declared(form.class, form.moment)
        || inquiry.is_published_at(form.class, form.moment)
    {
        Some(Refusal::Stands(form.class.number()))
    } else {
        None
    }
}

/// The first rule behind the repeat that a dividend breaks.
pub(crate) fn broken_by_dividend(inquiry: &Inquiry, form: &DividendForm) -> Option<Refusal>
    ensures { result ≡ first_some (rules_of inquiry.now (Request.Dividend form.now)) }
{
    first_broken(&[
        dividend_absent(inquiry, form),
        dividend_stands(inquiry, form),
        journal_full(inquiry),
    ])
}

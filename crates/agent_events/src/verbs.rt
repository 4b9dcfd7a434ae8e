//! The content of two requests of one verb.
ghost use Rattle.std.specs.Prelude.{◌≡◌, ◌&&◌, [], ◌∷◌, bytes_eq};
ghost use Rattle.std.specs.Cmp.Lexicographic.{pointwise};
ghost use Rattle.agent_events.specs.Contents.{same_request, entry_content, brackets_content, flag_number};
ghost use Rattle.agent_events.specs.declared.request.Request.TheVariants as asked;

use crate::fields::Identifier;
use crate::order::Order;
use crate::parts::{
    same_bearer, same_brackets, same_days, same_flag, same_order, same_prices, same_rates,
};
use crate::request::{
    AccountForm, CalendarForm, CancelForm, ClassForm, CloseForm, DealerForm, DividendForm,
    EntryForm, FixPriceForm, FixRateForm, HouseholdForm, LineForm, SheetForm, StatementForm,
    TraceForm, VoidForm,
};
use money_units::same_bytes;

fn same_calendar_numbers(first: &CalendarForm, second: &CalendarForm) -> bool
    ensures { result
        ≡ bytes_eq (first.now.calendar ∷ first.now.minute ∷ first.now.first ∷ first.now.last ∷ [])
        (second.now.calendar ∷ second.now.minute ∷ second.now.first ∷ second.now.last ∷ []) }
{
    first.calendar.number() == second.calendar.number()
        && first.minute.minutes() == second.minute.minutes()
        && first.first.number() == second.first.number()
        && first.last.number() == second.last.number()
}

fn same_entry(first: &EntryForm, second: &EntryForm) -> bool
    ensures { result ≡ pointwise bytes_eq (entry_content first.now) (entry_content second.now) }
{
    first.fix.number() == second.fix.number()
        && first.receipt.seconds() == second.receipt.seconds()
        && same_bearer(first.bearer, second.bearer)
        && same_order(&first.order, &second.order)
}

fn same_class_numbers(first: &ClassForm, second: &ClassForm) -> bool
    ensures { result
        ≡ bytes_eq (first.now.class ∷ first.now.calendar ∷ first.now.fund ∷ [])
        (second.now.class ∷ second.now.calendar ∷ second.now.fund ∷ []) }
{
    first.class.number() == second.class.number()
        && first.calendar.number() == second.calendar.number()
        && first.fund.number() == second.fund.number()
}

fn same_standing(first: &ClassForm, second: &ClassForm) -> bool
    ensures { result
        ≡ bytes_eq (first.now.family ∷ flag_number first.now.counts ∷ [])
        (second.now.family ∷ flag_number second.now.counts ∷ []) }
{
    first.family == second.family && same_flag(first.counts, second.counts)
}

fn same_minimums(first: &ClassForm, second: &ClassForm) -> bool
    ensures { result
        ≡ bytes_eq (first.now.first_min ∷ first.now.later_min ∷ [])
        (second.now.first_min ∷ second.now.later_min ∷ []) }
{
    first.first_min.cents() == second.first_min.cents()
        && first.later_min.cents() == second.later_min.cents()
}

fn same_loads(first: &ClassForm, second: &ClassForm) -> bool
    ensures { result
        ≡ (bytes_eq (brackets_content first.now.front) (brackets_content second.now.front) &&
        bytes_eq first.now.deferred second.now.deferred) }
{
    same_brackets(first.front.as_slice(), second.front.as_slice())
        && same_rates(first.deferred.as_slice(), second.deferred.as_slice())
}

pub(crate) fn same_calendar(first: &CalendarForm, second: &CalendarForm) -> bool
    ensures { result ≡ same_request (asked.Calendar first.now) (asked.Calendar second.now) }
{
    same_calendar_numbers(first, second)
        && same_bytes(first.zone.as_slice(), second.zone.as_slice())
        && same_days(first.holidays.as_slice(), second.holidays.as_slice())
}

pub(crate) fn same_close(first: &CloseForm, second: &CloseForm) -> bool
    ensures { result ≡ same_request (asked.Close first.now) (asked.Close second.now) }
{
    first.calendar.number() == second.calendar.number() && first.day.number() == second.day.number()
}

pub fn same_class(first: &ClassForm, second: &ClassForm) -> bool
    ensures { result ≡ same_request (asked.Class first.now) (asked.Class second.now) }
{
    same_class_numbers(first, second)
        && same_bytes(first.name.as_slice(), second.name.as_slice())
        && same_standing(first, second)
        && same_minimums(first, second)
        && same_loads(first, second)
}

pub(crate) fn same_dealer(first: &DealerForm, second: &DealerForm) -> bool
    ensures { result ≡ same_request (asked.Dealer first.now) (asked.Dealer second.now) }
{
    first.dealer.number() == second.dealer.number()
        && first.window.seconds() == second.window.seconds()
        && same_bytes(first.key.as_slice(), second.key.as_slice())
}

pub(crate) fn same_household(first: &HouseholdForm, second: &HouseholdForm) -> bool
    ensures { result ≡ same_request (asked.Household first.now) (asked.Household second.now) }
{
    first.household.number() == second.household.number()
        && same_bytes(first.key.as_slice(), second.key.as_slice())
}

pub(crate) fn same_account(first: &AccountForm, second: &AccountForm) -> bool
    ensures { result ≡ same_request (asked.Account first.now) (asked.Account second.now) }
{
    first.account.number() == second.account.number()
        && first.household.number() == second.household.number()
        && first.dealer == second.dealer
        && same_bytes(first.name.as_slice(), second.name.as_slice())
}

pub(crate) fn same_sheet(first: &SheetForm, second: &SheetForm) -> bool
    ensures { result ≡ same_request (asked.Sheet first.now) (asked.Sheet second.now) }
{
    first.calendar.number() == second.calendar.number()
        && first.moment.seconds() == second.moment.seconds()
        && same_prices(first.prices.as_slice(), second.prices.as_slice())
}

pub(crate) fn same_dividend(first: &DividendForm, second: &DividendForm) -> bool
    ensures { result ≡ same_request (asked.Dividend first.now) (asked.Dividend second.now) }
{
    first.class.number() == second.class.number()
        && first.moment.seconds() == second.moment.seconds()
        && first.rate.millionths() == second.rate.millionths()
}

pub(crate) fn same_fix_price(first: &FixPriceForm, second: &FixPriceForm) -> bool
    ensures { result ≡ same_request (asked.FixPrice first.now) (asked.FixPrice second.now) }
{
    first.fix.number() == second.fix.number()
        && first.class.number() == second.class.number()
        && first.moment.seconds() == second.moment.seconds()
        && first.nav.cents() == second.nav.cents()
        && same_bearer(first.bearer, second.bearer)
}

pub(crate) fn same_fix_rate(first: &FixRateForm, second: &FixRateForm) -> bool
    ensures { result ≡ same_request (asked.FixRate first.now) (asked.FixRate second.now) }
{
    first.fix.number() == second.fix.number()
        && first.class.number() == second.class.number()
        && first.moment.seconds() == second.moment.seconds()
        && first.rate.millionths() == second.rate.millionths()
        && same_bearer(first.bearer, second.bearer)
}

pub(crate) fn same_enter(first: &EntryForm, second: &EntryForm) -> bool
    ensures { result ≡ same_request (asked.Enter first.now) (asked.Enter second.now) }
{
    same_entry(first, second)
}

pub(crate) fn same_replace(first: &EntryForm, second: &EntryForm) -> bool
    ensures { result ≡ same_request (asked.Replace first.now) (asked.Replace second.now) }
{
    same_entry(first, second)
}

pub(crate) fn same_void(first: &VoidForm, second: &VoidForm) -> bool
    ensures { result ≡ same_request (asked.Void first.now) (asked.Void second.now) }
{
    first.fix.number() == second.fix.number()
        && first.account.number() == second.account.number()
        && first.ref_no.number() == second.ref_no.number()
        && same_bearer(first.bearer, second.bearer)
}

pub(crate) fn same_asked(first: &Order, second: &Order) -> bool
    ensures { result ≡ same_request (asked.Order first.now) (asked.Order second.now) }
{
    same_order(first, second)
}

pub(crate) fn same_cancel(first: &CancelForm, second: &CancelForm) -> bool
    ensures { result ≡ same_request (asked.Cancel first.now) (asked.Cancel second.now) }
{
    first.account.number() == second.account.number()
        && first.ref_no.number() == second.ref_no.number()
        && first.target.number() == second.target.number()
}

pub(crate) fn same_show(first: &Identifier, second: &Identifier) -> bool
    ensures { result ≡ same_request (asked.Show first.now) (asked.Show second.now) }
{
    first.number() == second.number()
}

pub(crate) fn same_trace(first: &TraceForm, second: &TraceForm) -> bool
    ensures { result ≡ same_request (asked.Trace first.now) (asked.Trace second.now) }
{
    first.account.number() == second.account.number()
        && first.ref_no.number() == second.ref_no.number()
}

pub(crate) fn same_statement(first: &StatementForm, second: &StatementForm) -> bool
    ensures { result ≡ same_request (asked.Statement first.now) (asked.Statement second.now) }
{
    first.account.number() == second.account.number()
        && first.first.number() == second.first.number()
        && first.last.number() == second.last.number()
}

pub(crate) fn same_line(first: &LineForm, second: &LineForm) -> bool
    ensures { result ≡ same_request (asked.Line first.now) (asked.Line second.now) }
{
    first.receipt.seconds() == second.receipt.seconds() && same_order(&first.order, &second.order)
}

//! The forms of the verbs: what the fields of a verb ask, or the place of the first field that isn't in its form.
ghost use Rattle.std.specs.Prelude.{map};
ghost use Rattle.agent_events.specs.Forms as form;
ghost use Rattle.agent_events.specs.Items as items;
ghost use Rattle.agent_events.specs.VerbForms as verb_form;
ghost use Rattle.request_fields.specs.Reading.{Gives};

use crate::fault::FormFault;
use crate::field_forms::{
    amount_of, flag_of, identifier_of, identifier_or_none_of, minimum_of, moment_of, name_of,
    nav_of, reference_of,
};
use crate::list_forms::{brackets_of, holidays_of, prices_of, rates_of};
use crate::order_forms::{enter_asked, is_order, line_asked, order_or_unknown, replace_asked};
use crate::reading::{at, field};
use crate::text_forms::{
    bearer_of, corrected_rate_of, dealer_key_of, dividend_rate_of, household_key_of, time_of,
    window_of, zone_of,
};
use agent_events::{
    AccountForm, CalendarForm, CancelForm, ClassForm, CloseForm, DealerForm, DividendForm,
    FixPriceForm, FixRateForm, FrontBrackets, HouseholdForm, Identifier, Minimum, Name, Request,
    SheetForm, StatementForm, TraceForm, VoidForm,
};
use class_terms::Schedule;
use fund_calendar::read_day;
use money_units::same_bytes;
use std::alloc::Global;

#[tactic(auto, unfolding(agent_events::specs::Forms::class_names))]
fn class_names(
    alloc: Global,
    fields: &[&[u8]],
) -> Result<(Identifier, Identifier, Identifier, Name, u32), FormFault>
    ensures { Gives result (form.class_names (map (λ text. text.now) fields.now)) }
{
    let class = at(1, identifier_of(field(fields, 1)))?;
    let calendar = at(2, identifier_of(field(fields, 2)))?;
    let fund = at(3, identifier_of(field(fields, 3)))?;
    let name = at(4, name_of(alloc, field(fields, 4))?)?;
    let family = at(5, identifier_or_none_of(field(fields, 5)))?;
    Ok((class, calendar, fund, name, family))
}

#[tactic(auto, unfolding(agent_events::specs::Forms::class_loads))]
fn class_loads(
    alloc: Global,
    fields: &[&[u8]],
) -> Result<(bool, Minimum, Minimum, FrontBrackets, Schedule), FormFault>
    ensures { Gives result (form.class_loads (map (λ text. text.now) fields.now)) }
{
    let counts = at(6, flag_of(field(fields, 6)))?;
    let first_min = at(7, minimum_of(field(fields, 7)))?;
    let later_min = at(8, minimum_of(field(fields, 8)))?;
    let front = at(9, brackets_of(alloc, field(fields, 9))?)?;
    let deferred = at(10, rates_of(alloc, field(fields, 10))?)?;
    Ok((counts, first_min, later_min, front, deferred))
}

#[tactic(auto, unfolding(agent_events::specs::Forms::class_form))]
fn class_form(alloc: Global, fields: &[&[u8]]) -> Result<ClassForm, FormFault>
    ensures { Gives result (form.class_form (map (λ text. text.now) fields.now)) }
{
    let (class, calendar, fund, name, family) = class_names(alloc, fields)?;
    let (counts, first_min, later_min, front, deferred) = class_loads(alloc, fields)?;
    Ok(ClassForm {
        class,
        calendar,
        fund,
        name,
        family,
        counts,
        first_min,
        later_min,
        front,
        deferred,
    })
}

#[tactic(auto, unfolding(agent_events::specs::Forms::sheet_form))]
fn sheet_form(alloc: Global, fields: &[&[u8]]) -> Result<SheetForm, FormFault>
    ensures { Gives result (form.sheet_form (map (λ text. text.now) fields.now)) }
{
    let calendar = at(1, identifier_of(field(fields, 1)))?;
    let moment = at(2, moment_of(field(fields, 2)))?;
    let prices = at(3, prices_of(alloc, field(fields, 3))?)?;
    Ok(SheetForm {
        calendar,
        moment,
        prices,
    })
}

fn class_request(alloc: Global, fields: &[&[u8]]) -> Result<Request, FormFault>
    ensures { Gives result (verb_form.class_asked (map (λ text. text.now) fields.now)) }
{
    Ok(Request::Class(class_form(alloc, fields)?))
}

fn sheet_request(alloc: Global, fields: &[&[u8]]) -> Result<Request, FormFault>
    ensures { Gives result (verb_form.sheet_asked (map (λ text. text.now) fields.now)) }
{
    Ok(Request::Sheet(sheet_form(alloc, fields)?))
}

fn show_request(fields: &[&[u8]]) -> Result<Request, FormFault>
    ensures { Gives result (verb_form.show_asked (map (λ text. text.now) fields.now)) }
{
    Ok(Request::Show(at(1, identifier_of(field(fields, 1)))?))
}

fn calendar_form(alloc: Global, fields: &[&[u8]]) -> Result<Request, FormFault>
    ensures { Gives result (verb_form.calendar_asked (map (λ text. text.now) fields.now)) }
{
    let calendar = at(1, identifier_of(field(fields, 1)))?;
    let zone = at(2, zone_of(alloc, field(fields, 2))?)?;
    let minute = at(3, time_of(field(fields, 3)))?;
    let first = at(4, read_day(field(fields, 4)))?;
    let last = at(5, read_day(field(fields, 5)))?;
    let holidays = at(6, holidays_of(alloc, field(fields, 6))?)?;
    Ok(Request::Calendar(CalendarForm {
        calendar,
        zone,
        minute,
        first,
        last,
        holidays,
    }))
}

fn close_form(fields: &[&[u8]]) -> Result<Request, FormFault>
    ensures { Gives result (verb_form.close_asked (map (λ text. text.now) fields.now)) }
{
    let calendar = at(1, identifier_of(field(fields, 1)))?;
    let day = at(2, read_day(field(fields, 2)))?;
    Ok(Request::Close(CloseForm { calendar, day }))
}

fn dealer_form(alloc: Global, fields: &[&[u8]]) -> Result<Request, FormFault>
    ensures { Gives result (verb_form.dealer_asked (map (λ text. text.now) fields.now)) }
{
    let dealer = at(1, identifier_of(field(fields, 1)))?;
    let key = at(2, dealer_key_of(alloc, field(fields, 2))?)?;
    let window = at(3, window_of(field(fields, 3)))?;
    Ok(Request::Dealer(DealerForm {
        dealer,
        key,
        window,
    }))
}

fn household_form(alloc: Global, fields: &[&[u8]]) -> Result<Request, FormFault>
    ensures { Gives result (verb_form.household_asked (map (λ text. text.now) fields.now)) }
{
    let household = at(1, identifier_of(field(fields, 1)))?;
    let key = at(2, household_key_of(alloc, field(fields, 2))?)?;
    Ok(Request::Household(HouseholdForm { household, key }))
}

fn account_form(alloc: Global, fields: &[&[u8]]) -> Result<Request, FormFault>
    ensures { Gives result (verb_form.account_asked (map (λ text. text.now) fields.now)) }
{
    let account = at(1, identifier_of(field(fields, 1)))?;
    let household = at(2, identifier_of(field(fields, 2)))?;
    let dealer = at(3, identifier_or_none_of(field(fields, 3)))?;
    let name = at(4, name_of(alloc, field(fields, 4))?)?;
    Ok(Request::Account(AccountForm {
        account,
        household,
        dealer,
        name,
    }))
}

fn dividend_form(fields: &[&[u8]]) -> Result<Request, FormFault>
    ensures { Gives result (verb_form.dividend_asked (map (λ text. text.now) fields.now)) }
{
    let class = at(1, identifier_of(field(fields, 1)))?;
    let moment = at(2, moment_of(field(fields, 2)))?;
    let rate = at(3, dividend_rate_of(field(fields, 3)))?;
    Ok(Request::Dividend(DividendForm {
        class,
        moment,
        rate,
    }))
}

fn fixprice_form(fields: &[&[u8]]) -> Result<Request, FormFault>
    ensures { Gives result (verb_form.fixprice_asked (map (λ text. text.now) fields.now)) }
{
    let fix = at(1, reference_of(field(fields, 1)))?;
    let bearer = at(2, bearer_of(field(fields, 2)))?;
    let class = at(3, identifier_of(field(fields, 3)))?;
    let moment = at(4, moment_of(field(fields, 4)))?;
    let nav = at(5, nav_of(field(fields, 5)))?;
    Ok(Request::FixPrice(FixPriceForm {
        fix,
        bearer,
        class,
        moment,
        nav,
    }))
}

fn fixrate_form(fields: &[&[u8]]) -> Result<Request, FormFault>
    ensures { Gives result (verb_form.fixrate_asked (map (λ text. text.now) fields.now)) }
{
    let fix = at(1, reference_of(field(fields, 1)))?;
    let bearer = at(2, bearer_of(field(fields, 2)))?;
    let class = at(3, identifier_of(field(fields, 3)))?;
    let moment = at(4, moment_of(field(fields, 4)))?;
    let rate = at(5, corrected_rate_of(field(fields, 5)))?;
    Ok(Request::FixRate(FixRateForm {
        fix,
        bearer,
        class,
        moment,
        rate,
    }))
}

fn void_form(fields: &[&[u8]]) -> Result<Request, FormFault>
    ensures { Gives result (verb_form.void_asked (map (λ text. text.now) fields.now)) }
{
    let fix = at(1, reference_of(field(fields, 1)))?;
    let bearer = at(2, bearer_of(field(fields, 2)))?;
    let account = at(3, identifier_of(field(fields, 3)))?;
    let ref_no = at(4, reference_of(field(fields, 4)))?;
    Ok(Request::Void(VoidForm {
        fix,
        bearer,
        account,
        ref_no,
    }))
}

fn cancel_form(fields: &[&[u8]]) -> Result<Request, FormFault>
    ensures { Gives result (verb_form.cancel_asked (map (λ text. text.now) fields.now)) }
{
    let account = at(1, identifier_of(field(fields, 1)))?;
    let ref_no = at(2, reference_of(field(fields, 2)))?;
    let target = at(3, reference_of(field(fields, 3)))?;
    Ok(Request::Cancel(CancelForm {
        account,
        ref_no,
        target,
    }))
}

fn trace_form(fields: &[&[u8]]) -> Result<Request, FormFault>
    ensures { Gives result (verb_form.trace_asked (map (λ text. text.now) fields.now)) }
{
    let account = at(1, identifier_of(field(fields, 1)))?;
    let ref_no = at(2, reference_of(field(fields, 2)))?;
    Ok(Request::Trace(TraceForm { account, ref_no }))
}

fn statement_form(fields: &[&[u8]]) -> Result<Request, FormFault>
    ensures { Gives result (verb_form.statement_asked (map (λ text. text.now) fields.now)) }
{
    let account = at(1, identifier_of(field(fields, 1)))?;
    let first = at(2, read_day(field(fields, 2)))?;
    let last = at(3, read_day(field(fields, 3)))?;
    Ok(Request::Statement(StatementForm {
        account,
        first,
        last,
    }))
}

fn calendar_asked(alloc: Global, fields: &[&[u8]]) -> Result<Request, FormFault>
    ensures { Gives result (form.of_length 6 verb_form.calendar_asked
        (map (λ text. text.now) fields.now)) }
{
    if fields.len() == 6 {
        calendar_form(alloc, fields)
    } else {
        Err(FormFault::Place(0))
    }
}

fn close_asked(fields: &[&[u8]]) -> Result<Request, FormFault>
    ensures { Gives result (form.of_length 2 verb_form.close_asked
        (map (λ text. text.now) fields.now)) }
{
    if fields.len() == 2 {
        close_form(fields)
    } else {
        Err(FormFault::Place(0))
    }
}

fn dealer_asked(alloc: Global, fields: &[&[u8]]) -> Result<Request, FormFault>
    ensures { Gives result (form.of_length 3 verb_form.dealer_asked
        (map (λ text. text.now) fields.now)) }
{
    if fields.len() == 3 {
        dealer_form(alloc, fields)
    } else {
        Err(FormFault::Place(0))
    }
}

fn household_asked(alloc: Global, fields: &[&[u8]]) -> Result<Request, FormFault>
    ensures { Gives result
        (form.of_length 2 verb_form.household_asked (map (λ text. text.now) fields.now)) }
{
    if fields.len() == 2 {
        household_form(alloc, fields)
    } else {
        Err(FormFault::Place(0))
    }
}

fn account_asked(alloc: Global, fields: &[&[u8]]) -> Result<Request, FormFault>
    ensures { Gives result (form.of_length 4 verb_form.account_asked
        (map (λ text. text.now) fields.now)) }
{
    if fields.len() == 4 {
        account_form(alloc, fields)
    } else {
        Err(FormFault::Place(0))
    }
}

fn dividend_asked(fields: &[&[u8]]) -> Result<Request, FormFault>
    ensures { Gives result (form.of_length 3 verb_form.dividend_asked
        (map (λ text. text.now) fields.now)) }
{
    if fields.len() == 3 {
        dividend_form(fields)
    } else {
        Err(FormFault::Place(0))
    }
}

fn fixprice_asked(fields: &[&[u8]]) -> Result<Request, FormFault>
    ensures { Gives result (form.of_length 5 verb_form.fixprice_asked
        (map (λ text. text.now) fields.now)) }
{
    if fields.len() == 5 {
        fixprice_form(fields)
    } else {
        Err(FormFault::Place(0))
    }
}

fn fixrate_asked(fields: &[&[u8]]) -> Result<Request, FormFault>
    ensures { Gives result (form.of_length 5 verb_form.fixrate_asked
        (map (λ text. text.now) fields.now)) }
{
    if fields.len() == 5 {
        fixrate_form(fields)
    } else {
        Err(FormFault::Place(0))
    }
}

fn void_asked(fields: &[&[u8]]) -> Result<Request, FormFault>
    ensures { Gives result (form.of_length 4 verb_form.void_asked
        (map (λ text. text.now) fields.now)) }
{
    if fields.len() == 4 {
        void_form(fields)
    } else {
        Err(FormFault::Place(0))
    }
}

fn cancel_asked(fields: &[&[u8]]) -> Result<Request, FormFault>
    ensures { Gives result (form.of_length 3 verb_form.cancel_asked
        (map (λ text. text.now) fields.now)) }
{
    if fields.len() == 3 {
        cancel_form(fields)
    } else {
        Err(FormFault::Place(0))
    }
}

fn trace_asked(fields: &[&[u8]]) -> Result<Request, FormFault>
    ensures { Gives result (form.of_length 2 verb_form.trace_asked
        (map (λ text. text.now) fields.now)) }
{
    if fields.len() == 2 {
        trace_form(fields)
    } else {
        Err(FormFault::Place(0))
    }
}

fn statement_asked(fields: &[&[u8]]) -> Result<Request, FormFault>
    ensures { Gives result
        (form.of_length 3 verb_form.statement_asked (map (λ text. text.now) fields.now)) }
{
    if fields.len() == 3 {
        statement_form(fields)
    } else {
        Err(FormFault::Place(0))
    }
}

fn class_asked(alloc: Global, fields: &[&[u8]]) -> Result<Request, FormFault>
    ensures { Gives result (form.of_length 10 verb_form.class_asked
        (map (λ text. text.now) fields.now)) }
{
    if fields.len() == 10 {
        class_request(alloc, fields)
    } else {
        Err(FormFault::Place(0))
    }
}

fn sheet_asked(alloc: Global, fields: &[&[u8]]) -> Result<Request, FormFault>
    ensures { Gives result (form.of_length 3 verb_form.sheet_asked
        (map (λ text. text.now) fields.now)) }
{
    if fields.len() == 3 {
        sheet_request(alloc, fields)
    } else {
        Err(FormFault::Place(0))
    }
}

fn show_asked(fields: &[&[u8]]) -> Result<Request, FormFault>
    ensures { Gives result (form.of_length 1 verb_form.show_asked
        (map (λ text. text.now) fields.now)) }
{
    if fields.len() == 1 {
        show_request(fields)
    } else {
        Err(FormFault::Place(0))
    }
}

fn books_asked(fields: &[&[u8]]) -> Result<Request, FormFault>
    ensures { Gives result (form.of_length 0 verb_form.books_asked
        (map (λ text. text.now) fields.now)) }
{
    if fields.len() == 0 {
        Ok(Request::Books)
    } else {
        Err(FormFault::Place(0))
    }
}

/// What a verb asks by its fields, or the place of the first that isn't in its form; place 0 is an unknown verb or a wrong number of
/// fields.
pub fn asked_by(alloc: Global, verb: &[u8], fields: &[&[u8]]) -> Result<Request, FormFault>
    ensures { Gives result (items.asked_by verb.now (map (λ text. text.now) fields.now)) }
{
    // Looks and orders are asked most, so their verbs are tried first.
    if same_bytes(verb, b"show") {
        show_asked(fields)
    } else if is_order(verb) {
        order_or_unknown(verb, fields)
    } else {
        asked_by_other(alloc, verb, fields)
    }
}

fn asked_by_other(alloc: Global, verb: &[u8], fields: &[&[u8]]) -> Result<Request, FormFault>
    ensures { Gives result (items.asked_by verb.now (map (λ text. text.now) fields.now)) }
{
    if same_bytes(verb, b"calendar") {
        calendar_asked(alloc, fields)
    } else if same_bytes(verb, b"close") {
        close_asked(fields)
    } else if same_bytes(verb, b"class") {
        class_asked(alloc, fields)
    } else if same_bytes(verb, b"dealer") {
        dealer_asked(alloc, fields)
    } else if same_bytes(verb, b"household") {
        household_asked(alloc, fields)
    } else if same_bytes(verb, b"account") {
        account_asked(alloc, fields)
    } else if same_bytes(verb, b"sheet") {
        sheet_asked(alloc, fields)
    } else if same_bytes(verb, b"dividend") {
        dividend_asked(fields)
    } else if same_bytes(verb, b"fixprice") {
        fixprice_asked(fields)
    } else if same_bytes(verb, b"fixrate") {
        fixrate_asked(fields)
    } else if same_bytes(verb, b"enter") {
        enter_asked(fields)
    } else if same_bytes(verb, b"replace") {
        replace_asked(fields)
    } else if same_bytes(verb, b"void") {
        void_asked(fields)
    } else if same_bytes(verb, b"cancel") {
        cancel_asked(fields)
    } else if same_bytes(verb, b"show") {
        show_asked(fields)
    } else if same_bytes(verb, b"trace") {
        trace_asked(fields)
    } else if same_bytes(verb, b"statement") {
        statement_asked(fields)
    } else if same_bytes(verb, b"books") {
        books_asked(fields)
    } else if same_bytes(verb, b"line") {
        line_asked(fields)
    } else {
        order_or_unknown(verb, fields)
    }
}

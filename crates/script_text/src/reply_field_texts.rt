//! The texts of a reply in order.
ghost use Rattle.std.specs.Prelude.{◌≡◌, [], ◌∷◌, ◌++◌, codes, map, IfOk, OnOk};
ghost use Rattle.money_units.specs.Texts.{money_text, number_text, shares_text};
ghost use Rattle.agent_events.specs.AnswerTexts.{answer_texts, books_texts, day_text, order_texts, refusal_values, ok_answer, state_text, trace_texts};

use crate::reply_texts::{
    class_books_of, dealer_books_of, gains_of, money_of, number_of, positions_of, shares_of,
    signed_of,
};
use crate::rows::{Fields, push_field};
use agent_events::{
    BooksReply, CancelForm, CloseForm, OrderReply, OrderState, Refusal, Reply, TraceReply,
    day_digits,
};
use money_units::{Bytes, NoMemory};
use std::alloc::Global;

/// The texts of a reply: `ok`, the reply's name and its texts, or `no`, the number of the refusal and its values.
pub fn reply_fields(alloc: Global, reply: &Reply) -> Result<Fields, NoMemory>
    ensures { IfOk result (λ fields. fields ≡ answer_texts reply.now) }
{
    match reply {
        Reply::Order(order) => order_texts(alloc, order),
        Reply::Cancel(form) => cancel_texts(alloc, form),
        Reply::Calendar(number) => numbered_texts(alloc, b"calendar", number.number() as u64),
        Reply::Class(number) => numbered_texts(alloc, b"class", number.number() as u64),
        Reply::Dealer(number) => numbered_texts(alloc, b"dealer", number.number() as u64),
        Reply::Household(number) => numbered_texts(alloc, b"household", number.number() as u64),
        Reply::Account(number) => numbered_texts(alloc, b"account", number.number() as u64),
        Reply::Close(form) => close_texts(alloc, form),
        Reply::Dividend { class, moment } => {
            let class = number_of(alloc, class.number() as u64)?;
            let moment = number_of(alloc, moment.seconds())?;
            two_texts(alloc, b"dividend", &class, &moment)
        }
        Reply::Sheet(number) => numbered_texts(alloc, b"sheet", *number as u64),
        Reply::Fix { fix, gains } => {
            let fix = number_of(alloc, fix.number())?;
            let gains = gains_of(alloc, gains.as_slice())?;
            two_texts(alloc, b"fix", &fix, &gains)
        }
        Reply::Show { account, positions } => {
            let account = number_of(alloc, account.number() as u64)?;
            let positions = positions_of(alloc, positions.as_slice())?;
            two_texts(alloc, b"show", &account, &positions)
        }
        Reply::Trace(traced) => trace_fields(alloc, traced),
        Reply::Statement { account, text } => {
            let account = number_of(alloc, account.number() as u64)?;
            two_texts(alloc, b"statement", &account, text.as_slice())
        }
        Reply::Books(books) => books_texts(alloc, books),
        Reply::Refused(refusal) => refusal_texts(alloc, *refusal),
    }
}

// The texts of a reply that has one number.
fn numbered_texts(alloc: Global, name: &[u8], number: u64) -> Result<Fields, NoMemory>
    ensures { IfOk result (λ fields. fields ≡ ok_answer name.now (number_text number ∷ [])) }
{
    let text = number_of(alloc, number)?;
    fields_of(alloc, &[b"ok".as_slice(), name, text.as_slice()])
}

// The texts of a reply that has two texts.
fn two_texts(alloc: Global, name: &[u8], first: &[u8], second: &[u8]) -> Result<Fields, NoMemory>
    ensures { IfOk result (λ fields. fields ≡ ok_answer name.now (first.now ∷ second.now ∷ [])) }
{
    fields_of(alloc, &[b"ok".as_slice(), name, first, second])
}

// The fields of a reply so far: `ok` and its name.
fn ok_fields(alloc: Global, name: &[u8]) -> Result<Fields, NoMemory>
    ensures { IfOk result (λ fields. fields ≡ ok_answer name.now []) }
{
    let mut fields = Fields::new(alloc);
    push_field(alloc, &mut fields, b"ok")?;
    push_field(alloc, &mut fields, name)?;
    Ok(fields)
}

// Appends a number.
fn push_number(alloc: Global, fields: &mut Fields, number: u64) -> Result<(), NoMemory>
    ensures { OnOk result (fields.new ≡ fields.old ++ number_text number ∷ []) }
{
    fields.push(Bytes::from_vec(number_of(alloc, number)?))?;
    Ok(())
}

fn order_texts(alloc: Global, order: &OrderReply) -> Result<Fields, NoMemory>
    ensures { IfOk result (λ fields. fields ≡ ok_answer (codes "order") (order_texts order.now)) }
{
    let mut fields = ok_fields(alloc, b"order")?;
    push_number(alloc, &mut fields, order.account.number() as u64)?;
    push_number(alloc, &mut fields, order.ref_no.number())?;
    push_number(alloc, &mut fields, order.receipt.seconds())?;
    push_number(alloc, &mut fields, order.due.seconds())?;
    Ok(fields)
}

fn cancel_texts(alloc: Global, form: &CancelForm) -> Result<Fields, NoMemory>
    ensures { IfOk result
        (λ fields.
        fields
        ≡ ok_answer (codes "cancel")
        (number_text form.now.account ∷ number_text form.now.ref_no
        ∷ number_text form.now.target ∷ [])) }
{
    let mut fields = ok_fields(alloc, b"cancel")?;
    push_number(alloc, &mut fields, form.account.number() as u64)?;
    push_number(alloc, &mut fields, form.ref_no.number())?;
    push_number(alloc, &mut fields, form.target.number())?;
    Ok(fields)
}

fn close_texts(alloc: Global, form: &CloseForm) -> Result<Fields, NoMemory>
    ensures { IfOk result
        (λ fields.
        fields
        ≡ ok_answer (codes "close")
        (number_text form.now.calendar ∷ day_text form.now.day ∷ [])) }
{
    let calendar = number_of(alloc, form.calendar.number() as u64)?;
    let day = day_digits(&form.day);
    two_texts(alloc, b"close", &calendar, &day)
}

// How an order stands, in a word.
fn state_word(state: OrderState) -> &'static [u8]
    ensures { result.now ≡ state_text state }
{
    match state {
        OrderState::Pending => b"pending",
        OrderState::Filled => b"filled",
        OrderState::Short => b"short",
        OrderState::Small => b"small",
        OrderState::Ceiling => b"ceiling",
        OrderState::Letter => b"letter",
        OrderState::Struck => b"struck",
    }
}

// The account, the reference and how the order stands.
fn push_order(alloc: Global, traced: &TraceReply, fields: &mut Fields) -> Result<(), NoMemory>
    ensures { OnOk result (fields.new ≡ fields.old
        ++ number_text traced.now.account ∷ number_text traced.now.ref_no
        ∷ state_text traced.now.state ∷ []) }
{
    push_number(alloc, fields, traced.account.number() as u64)?;
    push_number(alloc, fields, traced.ref_no.number())?;
    push_field(alloc, fields, state_word(traced.state))
}

// The receipt and the due moment.
fn push_moments(alloc: Global, traced: &TraceReply, fields: &mut Fields) -> Result<(), NoMemory>
    ensures { OnOk result
        (fields.new
        ≡ fields.old ++ number_text traced.now.receipt ∷ number_text traced.now.due ∷ []) }
{
    push_number(alloc, fields, traced.receipt.seconds())?;
    push_number(alloc, fields, traced.due.seconds())
}

// What was traded, and the loose mils of an order that is short.
fn push_trade(alloc: Global, traced: &TraceReply, fields: &mut Fields) -> Result<(), NoMemory>
    ensures { OnOk result (fields.new
        ≡ fields.old ++ money_text traced.now.price ∷ shares_text traced.now.mils
        ∷ money_text traced.now.cash ∷ money_text traced.now.charge ∷ shares_text traced.now.loose
        ∷ []) }
{
    push_field(alloc, fields, &money_of(alloc, traced.price.0 as u128)?)?;
    push_field(alloc, fields, &shares_of(alloc, traced.mils.0 as u128)?)?;
    push_field(alloc, fields, &money_of(alloc, traced.cash.0 as u128)?)?;
    push_field(alloc, fields, &money_of(alloc, traced.charge.0 as u128)?)?;
    push_field(alloc, fields, &shares_of(alloc, traced.loose.0 as u128)?)
}

fn trace_fields(alloc: Global, traced: &TraceReply) -> Result<Fields, NoMemory>
    ensures { IfOk result (λ fields. fields ≡ ok_answer (codes "trace") (trace_texts traced.now)) }
{
    let mut fields = ok_fields(alloc, b"trace")?;
    push_order(alloc, traced, &mut fields)?;
    push_moments(alloc, traced, &mut fields)?;
    push_trade(alloc, traced, &mut fields)?;
    Ok(fields)
}

fn books_texts(alloc: Global, books: &BooksReply) -> Result<Fields, NoMemory>
    ensures { IfOk result (λ fields. fields ≡ ok_answer (codes "books") (books_texts books.now)) }
{
    let classes = class_books_of(alloc, books.classes.as_slice())?;
    let underwriter = signed_of(alloc, books.underwriter)?;
    let agent = signed_of(alloc, books.agent)?;
    let dealers = dealer_books_of(alloc, books.dealers.as_slice())?;
    let holders = signed_of(alloc, books.holders)?;
    let texts = [
        b"ok".as_slice(),
        b"books",
        classes.as_slice(),
        underwriter.as_slice(),
        agent.as_slice(),
        dealers.as_slice(),
        holders.as_slice(),
    ];
    fields_of(alloc, &texts)
}

// ---- refusals

fn refusal_texts(alloc: Global, refusal: Refusal) -> Result<Fields, NoMemory>
    ensures { IfOk result (λ fields. fields ≡ codes "no" ∷ refusal_values refusal) }
{
    match refusal {
        Refusal::NoRight => no_value(alloc, b"1"),
        Refusal::BadForm(place) => one_value(alloc, b"2", place as u64),
        Refusal::NoSuch(place) => one_value(alloc, b"3", place as u64),
        Refusal::RefUsed => no_value(alloc, b"4"),
        Refusal::CalendarEnded => no_value(alloc, b"5"),
        Refusal::BelowMinimum(minimum) => minimum_value(alloc, minimum.cents()),
        Refusal::NotOffered => no_value(alloc, b"7"),
        Refusal::LateForDealer(due) => one_value(alloc, b"8", due.seconds()),
        Refusal::ReceiptAhead(now) => one_value(alloc, b"9", now.seconds()),
        Refusal::CancelLate(due) => one_value(alloc, b"10", due.seconds()),
        Refusal::NotPending => no_value(alloc, b"11"),
        Refusal::SheetOutOfTurn(moment, calendar) => {
            two_values(alloc, b"12", moment.seconds(), calendar as u64)
        }
        Refusal::SheetIncomplete(class) => one_value(alloc, b"13", class as u64),
        Refusal::Stands(number) => one_value(alloc, b"14", number as u64),
        Refusal::Breaks(account, ref_no) => {
            two_values(alloc, b"15", account.number() as u64, ref_no.number())
        }
        Refusal::OrdersFull(limit) => one_value(alloc, b"16", limit as u64),
        Refusal::TooMany(limit) => one_value(alloc, b"17", limit as u64),
        Refusal::TooSoon(moment) => one_value(alloc, b"18", moment.seconds()),
        Refusal::JournalFull => no_value(alloc, b"19"),
        Refusal::StampBack(last) => one_value(alloc, b"20", last.seconds()),
    }
}

// The texts of a refusal without a value.
fn no_value(alloc: Global, number: &[u8]) -> Result<Fields, NoMemory>
    ensures { IfOk result (λ fields. fields ≡ codes "no" ∷ number.now ∷ []) }
{
    fields_of(alloc, &[b"no".as_slice(), number])
}

// The texts of a refusal that has one value.
fn one_value(alloc: Global, number: &[u8], value: u64) -> Result<Fields, NoMemory>
    ensures { IfOk result (λ fields. fields ≡ codes "no" ∷ number.now ∷ number_text value ∷ []) }
{
    let value = number_of(alloc, value)?;
    fields_of(alloc, &[b"no".as_slice(), number, value.as_slice()])
}

// The texts for a purchase below its minimum.
fn minimum_value(alloc: Global, minimum: u64) -> Result<Fields, NoMemory>
    ensures { IfOk result (λ fields. fields ≡ codes "no" ∷ codes "6" ∷ money_text minimum ∷ []) }
{
    let value = money_of(alloc, minimum as u128)?;
    fields_of(alloc, &[b"no".as_slice(), b"6", value.as_slice()])
}

// The texts of a refusal that has two values.
fn two_values(alloc: Global, number: &[u8], first: u64, second: u64) -> Result<Fields, NoMemory>
    ensures { IfOk result
        (λ fields.
        fields ≡ codes "no" ∷ number.now ∷ number_text first ∷ number_text second ∷ []) }
{
    let first = number_of(alloc, first)?;
    let second = number_of(alloc, second)?;
    fields_of(
        alloc,
        &[
            b"no".as_slice(),
            number,
            first.as_slice(),
            second.as_slice(),
        ],
    )
}

// These texts as fields.
fn fields_of(alloc: Global, texts: &[&[u8]]) -> Result<Fields, NoMemory>
    ensures { IfOk result (λ fields. fields ≡ map (λ text. text.now) texts.now) }
{
    let mut fields = Fields::new(alloc);
    for text in texts {
        push_field(alloc, &mut fields, text)?;
    }
    Ok(fields)
}

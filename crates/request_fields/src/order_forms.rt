//! The forms of the order verbs, and of the verbs that carry one.
ghost use Rattle.std.specs.Prelude.{◌≡◌, ◌+◌, ◌≤◌, List, ℕ, Err, if◌then◌else◌, is_some, option_map, map};
ghost use Rattle.agent_events.specs.Fields as field_form;
ghost use Rattle.agent_events.specs.Forms.{at};
ghost use Rattle.agent_events.specs.OrderForms as form;
ghost use Rattle.agent_events.specs.VerbForms.{Asked};
ghost use Rattle.request_fields.specs.Reading.{Gives};

use crate::fault::FormFault;
use crate::field_forms::{amount_of, identifier_of, moment_of, reference_of};
use crate::reading::{at, field};
use crate::text_forms::{bearer_of, pay_of, quantity_of};
use agent_events::{Body, EntryForm, Identifier, LineForm, Order, Request};
use money_units::same_bytes;

/// How many fields an order verb has, where it is one.
pub fn order_count(verb: &[u8]) -> Option<u8>
    ensures { result ≡ form.order_count verb.now }
{
    if same_bytes(verb, b"buy") {
        Some(4)
    } else if same_bytes(verb, b"sell") {
        Some(4)
    } else if same_bytes(verb, b"sellcash") {
        Some(4)
    } else if same_bytes(verb, b"sellall") {
        Some(3)
    } else if same_bytes(verb, b"exchange") {
        Some(5)
    } else if same_bytes(verb, b"exchangeall") {
        Some(4)
    } else if same_bytes(verb, b"letter") {
        Some(4)
    } else if same_bytes(verb, b"elect") {
        Some(4)
    } else {
        None
    }
}

/// Whether a verb is one of an order.
pub fn is_order(verb: &[u8]) -> bool
    ensures { result ≡ is_some (form.order_count verb.now) }
{
    order_count(verb).is_some()
}

fn buy_body(place: u8, class: Identifier, text: &[u8]) -> Result<Body, FormFault>
    ensures { Gives result (at place (option_map (Body.Buy class) (field_form.amount text.now))) }
{
    match amount_of(text) {
        Some(gross) => Ok(Body::Buy { class, gross }),
        None => Err(FormFault::Place(place)),
    }
}

fn sell_body(place: u8, class: Identifier, text: &[u8]) -> Result<Body, FormFault>
    ensures { Gives result (at place (option_map (Body.Sell class)
        (field_form.quantity text.now))) }
{
    match quantity_of(text) {
        Some(mils) => Ok(Body::Sell { class, mils }),
        None => Err(FormFault::Place(place)),
    }
}

fn sell_cash_body(place: u8, class: Identifier, text: &[u8]) -> Result<Body, FormFault>
    ensures { Gives result (at place (option_map (Body.SellCash class)
        (field_form.amount text.now))) }
{
    match amount_of(text) {
        Some(amount) => Ok(Body::SellCash { class, amount }),
        None => Err(FormFault::Place(place)),
    }
}

fn exchange_all_body(place: u8, class: Identifier, text: &[u8]) -> Result<Body, FormFault>
    ensures { Gives result
        (at place (option_map (Body.ExchangeAll class) (field_form.identifier text.now))) }
{
    match identifier_of(text) {
        Some(to) => Ok(Body::ExchangeAll { class, to }),
        None => Err(FormFault::Place(place)),
    }
}

fn letter_body(place: u8, class: Identifier, text: &[u8]) -> Result<Body, FormFault>
    ensures { Gives result (at place (option_map (Body.Letter class)
        (field_form.amount text.now))) }
{
    match amount_of(text) {
        Some(amount) => Ok(Body::Letter { class, amount }),
        None => Err(FormFault::Place(place)),
    }
}

fn elect_body(place: u8, class: Identifier, text: &[u8]) -> Result<Body, FormFault>
    ensures { Gives result (at place (option_map (Body.Elect class) (field_form.pay text.now))) }
{
    match pay_of(text) {
        Some(in_cash) => Ok(Body::Elect { class, in_cash }),
        None => Err(FormFault::Place(place)),
    }
}

// An exchange of some shares, by its target and its mils.
fn exchange_body(before: u8, class: Identifier, fields: &[&[u8]]) -> Result<Body, FormFault>
    requires { before ≤ 4 }
    ensures { Gives result (form.exchange_form before class (map (λ text. text.now) fields.now)) }
{
    let to = at(before + 4, identifier_of(field(fields, before + 4)))?;
    let mils = at(before + 5, quantity_of(field(fields, before + 5)))?;
    Ok(Body::Exchange { class, to, mils })
}

// What an order of a class does, by the fields behind its class.
fn body_form(
    verb: &[u8],
    before: u8,
    class: Identifier,
    fields: &[&[u8]],
) -> Result<Body, FormFault>
    requires { before ≤ 4 }
    ensures { Gives result (form.body_form verb.now before class
        (map (λ text. text.now) fields.now)) }
{
    let place = before + 4;
    let text = field(fields, place);
    if same_bytes(verb, b"buy") {
        buy_body(place, class, text)
    } else if same_bytes(verb, b"sell") {
        sell_body(place, class, text)
    } else if same_bytes(verb, b"sellcash") {
        sell_cash_body(place, class, text)
    } else if same_bytes(verb, b"sellall") {
        Ok(Body::SellAll { class })
    } else if same_bytes(verb, b"exchange") {
        exchange_body(before, class, fields)
    } else if same_bytes(verb, b"exchangeall") {
        exchange_all_body(place, class, text)
    } else if same_bytes(verb, b"letter") {
        letter_body(place, class, text)
    } else {
        elect_body(place, class, text)
    }
}

// An order: its account, its reference, its class and the rest.
fn order_form(verb: &[u8], before: u8, fields: &[&[u8]]) -> Result<Order, FormFault>
    requires { before ≤ 4 }
    ensures { Gives result (form.order_form verb.now before (map (λ text. text.now) fields.now)) }
{
    let account = at(before + 1, identifier_of(field(fields, before + 1)))?;
    let ref_no = at(before + 2, reference_of(field(fields, before + 2)))?;
    let class = at(before + 3, identifier_of(field(fields, before + 3)))?;
    let body = body_form(verb, before, class, fields)?;
    Ok(Order {
        account,
        ref_no,
        body,
    })
}

fn order_request(verb: &[u8], fields: &[&[u8]]) -> Result<Request, FormFault>
    ensures { Gives result (form.order_asked verb.now (map (λ text. text.now) fields.now)) }
{
    Ok(Request::Order(order_form(verb, 0, fields)?))
}

/// What an order verb asks, or no verb at all.
pub(crate) fn order_or_unknown(verb: &[u8], fields: &[&[u8]]) -> Result<Request, FormFault>
    ensures { Gives result
        (form.order_or_unknown (form.order_count verb.now) verb.now
        (map (λ text. text.now) fields.now)) }
{
    match order_count(verb) {
        Some(count) if fields.len() == count as usize => order_request(verb, fields),
        _ => Err(FormFault::Place(0)),
    }
}

// Whether a verb that carries an order has enough fields to reach it, and as many as the order needs where that is known.
fn is_counted(lead: u8, fields: &[&[u8]]) -> bool
    requires { 1 ≤ lead }
    ensures { (asks : List (List ℕ) → Asked)
        → form.with_order lead asks (map (λ text. text.now) fields.now)
        ≡ (if result then asks (map (λ text. text.now) fields.now) else Err 0) }
{
    if fields.len() < lead as usize {
        return false;
    }
    match order_count(field(fields, lead)) {
        Some(count) => fields.len() == lead as usize + count as usize,
        None => true,
    }
}

fn carried_order(before: u8, fields: &[&[u8]]) -> Result<Order, FormFault>
    requires least { 1 ≤ before }
    requires most { before ≤ 4 }
    ensures { Gives result (form.carried_order before (map (λ text. text.now) fields.now)) }
{
    order_form(field(fields, before), before, fields)
}

fn line_form(fields: &[&[u8]]) -> Result<Request, FormFault>
    ensures { Gives result (form.line_asked (map (λ text. text.now) fields.now)) }
{
    let receipt = at(1, moment_of(field(fields, 1)))?;
    let _count = at(2, order_count(field(fields, 2)))?;
    let order = carried_order(2, fields)?;
    Ok(Request::Line(LineForm { receipt, order }))
}

/// What a dealer's line asks, which is a batch's record too.
pub fn line_asked(fields: &[&[u8]]) -> Result<Request, FormFault>
    ensures { Gives result (form.with_order 2 form.line_asked (map (λ text. text.now) fields.now)) }
{
    if !is_counted(2, fields) {
        return Err(FormFault::Place(0));
    }
    line_form(fields)
}

fn entry_form(fields: &[&[u8]]) -> Result<EntryForm, FormFault>
    ensures { Gives result (form.entry_form (map (λ text. text.now) fields.now)) }
{
    let fix = at(1, reference_of(field(fields, 1)))?;
    let bearer = at(2, bearer_of(field(fields, 2)))?;
    let receipt = at(3, moment_of(field(fields, 3)))?;
    let _count = at(4, order_count(field(fields, 4)))?;
    let order = carried_order(4, fields)?;
    Ok(EntryForm {
        fix,
        bearer,
        receipt,
        order,
    })
}

fn enter_form(fields: &[&[u8]]) -> Result<Request, FormFault>
    ensures { Gives result (form.enter_asked (map (λ text. text.now) fields.now)) }
{
    Ok(Request::Enter(entry_form(fields)?))
}

fn replace_form(fields: &[&[u8]]) -> Result<Request, FormFault>
    ensures { Gives result (form.replace_asked (map (λ text. text.now) fields.now)) }
{
    Ok(Request::Replace(entry_form(fields)?))
}

/// What asks to enter an order with a past receipt.
pub(crate) fn enter_asked(fields: &[&[u8]]) -> Result<Request, FormFault>
    ensures { Gives result (form.with_order 4 form.enter_asked
        (map (λ text. text.now) fields.now)) }
{
    if !is_counted(4, fields) {
        return Err(FormFault::Place(0));
    }
    enter_form(fields)
}

/// What asks to replace an order.
pub(crate) fn replace_asked(fields: &[&[u8]]) -> Result<Request, FormFault>
    ensures { Gives result (form.with_order 4 form.replace_asked
        (map (λ text. text.now) fields.now)) }
{
    if !is_counted(4, fields) {
        return Err(FormFault::Place(0));
    }
    replace_form(fields)
}

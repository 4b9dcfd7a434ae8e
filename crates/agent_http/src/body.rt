//! What a JSON body asks of a verb.
ghost use Rattle.std.specs.Prelude.{◌≡◌, ◌⊎◌, ◌++◌, map, IfOk};
ghost use Rattle.serde_json.specs.Errors.{IsMemory};
ghost use Rattle.serde_json.specs.Find.{as_object};
ghost use Rattle.serde_json.specs.View.{view};
ghost use Rattle.agent_events.specs.Items as items;
ghost use Rattle.agent_events.specs.JsonForms as form;
ghost use Rattle.request_fields.specs.Reading.{Gives};
ghost use Rattle.request_fields.specs.declared.fault.FormFault.TheVariants as fault;
ghost use Rattle.agent_http.specs.Bodies as spec;
ghost use Rattle.agent_http.specs.Views.{member_view};

use crate::flat::flat_members;
use crate::member_names::{entry_names, field_names, is_one_of, order_names};
use crate::members::{MemberText, are_named, members_of, text_named};
use agent_events::Request;
use json::Scratch;
use money_units::NoMemory;
use request_fields::{FormFault, asked_by, is_order, order_count, same_bytes};
use serde_json::{Error, Value};
use std::alloc::Global;

/// Whether a body carries this verb, besides `enter` and `replace`.
pub(crate) fn is_posted(verb: &[u8]) -> bool
    ensures { result ≡ form.is_posted verb.now }
{
    let verbs: [&[u8]; 20] = [
        b"calendar",
        b"close",
        b"class",
        b"dealer",
        b"household",
        b"account",
        b"sheet",
        b"dividend",
        b"fixprice",
        b"fixrate",
        b"void",
        b"buy",
        b"sell",
        b"sellcash",
        b"sellall",
        b"exchange",
        b"exchangeall",
        b"letter",
        b"elect",
        b"cancel",
    ];
    is_one_of(verb, &verbs)
}

/// What a body asks of a verb, or the place of the first field that isn't in its form. A body that is no object, and a member
/// with a name that the verb hasn't, are place 0.
pub(crate) fn asked_by_body(
    alloc: Global,
    scratch: &mut Scratch,
    verb: &[u8],
    body: &[u8],
) -> Result<Request, FormFault>
    ensures { Gives result (spec.asked_by_body verb.now body.now) }
{
    match flat_members(alloc, body, scratch)? {
        Some(members) => asked_by_members(alloc, verb, &members),
        None => asked_by_text(alloc, verb, body),
    }
}

// The same of any body, by the value that it reads as.
fn asked_by_text(alloc: Global, verb: &[u8], body: &[u8]) -> Result<Request, FormFault>
    ensures { Gives result (spec.asked_by_body verb.now body.now) }
{
    match Value::from_slice(alloc, body) {
        Ok(value) => asked_by_value(alloc, verb, &value),
        Err(error) => Err(unreadable(&error)),
    }
}

fn asked_by_value(alloc: Global, verb: &[u8], value: &Value) -> Result<Request, FormFault>
    ensures { Gives result (spec.asked_by_object verb.now (as_object (view value.now))) }
{
    match value.as_object() {
        Some(object) => {
            let members = members_of(alloc, object)?;
            asked_by_members(alloc, verb, &members)
        }
        None => Err(FormFault::Place(0)),
    }
}

// Only memory is no fault of the body.
fn unreadable(error: &Error) -> FormFault
    ensures { (result ≡ fault.NoMemory)
        ⊎ ((result ≡ fault.Place 0) × ¬ (IsMemory error.now)) }
{
    if error.is_memory() {
        FormFault::NoMemory
    } else {
        FormFault::Place(0)
    }
}

fn asked_by_members(
    alloc: Global,
    verb: &[u8],
    members: &[MemberText<'_>],
) -> Result<Request, FormFault>
    ensures { Gives result (form.asked_by_members verb.now (map member_view members.now)) }
{
    if is_order(verb) {
        asked_by_names(alloc, verb, order_names(verb), members)
    } else {
        other_members(alloc, verb, members)
    }
}

fn other_members(
    alloc: Global,
    verb: &[u8],
    members: &[MemberText<'_>],
) -> Result<Request, FormFault>
    ensures { Gives result (form.asked_by_members verb.now (map member_view members.now)) }
{
    if same_bytes(verb, b"enter") || same_bytes(verb, b"replace") {
        entry_members(alloc, verb, text_named(members, b"verb"), members)
    } else if is_posted(verb) {
        asked_by_names(alloc, verb, field_names(verb), members)
    } else {
        Err(FormFault::Place(0))
    }
}

// The members of an order verb stand beside the others; where that verb is unknown, other members are passed over.
fn entry_members(
    alloc: Global,
    verb: &[u8],
    order_verb: &[u8],
    members: &[MemberText<'_>],
) -> Result<Request, FormFault>
    ensures { Gives result (form.entry_members verb.now order_verb.now
        (map member_view members.now)) }
{
    match order_count(order_verb) {
        None => asked_by_texts(alloc, verb, entry_names(), members),
        Some(_) => asked_by_all_names(alloc, verb, order_names(order_verb), members),
    }
}

fn asked_by_all_names(
    alloc: Global,
    verb: &[u8],
    names: &[&[u8]],
    members: &[MemberText<'_>],
) -> Result<Request, FormFault>
    ensures { Gives result
        (form.asked_by_names verb.now (form.entry_names ++ map (λ name. name.now) names.now)
        (map member_view members.now)) }
{
    let all = names_with(alloc, names)?;
    asked_by_names(alloc, verb, &all, members)
}

fn names_with<'a>(alloc: Global, names: &[&'a [u8]]) -> Result<Vec<&'a [u8]>, NoMemory>
    ensures { IfOk result
        (λ all.
        map (λ name. name.now) all.items
        ≡ form.entry_names ++ map (λ name. name.now) names.now) }
{
    let mut all = Vec::from_slice(alloc, entry_names())?;
    all.extend_from_slice(names)?;
    Ok(all)
}

// The fields of these names, where no member has another.
fn asked_by_names(
    alloc: Global,
    verb: &[u8],
    names: &[&[u8]],
    members: &[MemberText<'_>],
) -> Result<Request, FormFault>
    ensures { Gives result
        (form.asked_by_names verb.now (map (λ name. name.now) names.now)
        (map member_view members.now)) }
{
    if are_named(names, members) {
        asked_by_texts(alloc, verb, names, members)
    } else {
        Err(FormFault::Place(0))
    }
}

fn asked_by_texts(
    alloc: Global,
    verb: &[u8],
    names: &[&[u8]],
    members: &[MemberText<'_>],
) -> Result<Request, FormFault>
    ensures { Gives result
        (items.asked_by verb.now
        (form.texts_named (map member_view members.now)
        (map (λ name. name.now) names.now))) }
{
    let texts = texts_named(alloc, names, members)?;
    asked_by(alloc, verb, &texts)
}

fn texts_named<'a>(
    alloc: Global,
    names: &[&[u8]],
    members: &'a [MemberText<'_>],
) -> Result<Vec<&'a [u8]>, NoMemory>
    ensures { IfOk result (λ texts. map (λ text. text.now) texts.items
        ≡ form.texts_named (map member_view members.now) (map (λ name. name.now) names.now)) }
{
    let mut texts = Vec::new(alloc);
    for name in names {
        texts.push(text_named(members, name))?;
    }
    Ok(texts)
}

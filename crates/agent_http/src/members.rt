//! The members of an object as texts by name.
ghost use Rattle.std.specs.Prelude.{◌≡◌, map, option_map, string_bytes, IfOk};
ghost use Rattle.std.specs.List.{list_all, list_any};
ghost use Rattle.std.specs.Str.{bytes_eq};
ghost use Rattle.serde_json.specs.View.{members_view, view};
ghost use Rattle.agent_events.specs.JsonForms as form;
ghost use Rattle.agent_http.specs.Bodies as spec;
ghost use Rattle.agent_http.specs.Views.{member_view, text_view};
ghost use Rattle.money_units.specs.Texts.{number_text};

use crate::member_names::is_one_of;
use itoa::write_digits;
use money_units::NoMemory;
use serde_json::{Map, Value};
use std::alloc::Global;
use std::marker::Model;

/// The digits of a number.
#[derive(Debug, Drop)]
pub(crate) struct Digits {
    bytes: [u8; 20],
    // Where they begin.
    start: usize,
}

impl Model for Digits {
    ghost use Rattle.std.specs.Prelude.{List, ℕ, ◌≤◌, drop};

    ghost Value = { List ℕ };

    ghost view = { λ digits. drop digits.start digits.bytes };

    ghost invariant = { λ digits. digits.start ≤ 20 };
}

impl Digits {
    fn new(number: u64) -> Digits
        ensures { result ≡ number_text number }
    {
        let mut bytes = [0; 20];
        let start = write_digits(number, &mut bytes, 20);
        Digits { bytes, start }
    }

    fn as_slice(&self) -> &[u8]
        ensures { result.now ≡ self.now }
    {
        &self.bytes[self.start..]
    }
}

/// The text of a value, where it has one.
#[derive(Debug, Drop)]
pub(crate) enum ValueText<'a> {
    Missing,
    Number(Digits),
    String(&'a [u8]),
}

/// A member by its name, and the text of its value.
#[derive(Debug, Drop)]
pub(crate) struct MemberText<'a> {
    pub name: &'a [u8],
    pub text: ValueText<'a>,
}

/// The members of an object, in the order of their names.
pub(crate) fn members_of<'a>(
    alloc: Global,
    object: &'a Map<String, Value>,
) -> Result<Vec<MemberText<'a>>, NoMemory>
    ensures { IfOk result
        (λ members.
        map member_view members.items ≡ spec.members_in (members_view object.now.entries)) }
{
    let mut members = Vec::new(alloc);
    for (name, value) in object {
        members.push(member_of(name, value))?;
    }
    Ok(members)
}

fn member_of<'a>(name: &'a String, value: &'a Value) -> MemberText<'a>
    ensures { member_view result
        ≡ record { name = string_bytes name.now; text = spec.text_of (view value.now) } }
{
    MemberText {
        name: name.as_bytes(),
        text: text_of(value),
    }
}

fn text_of(value: &Value) -> ValueText<'_>
    ensures { text_view result ≡ spec.text_of (view value.now) }
{
    if let Some(text) = value.as_str() {
        return ValueText::String(text.as_bytes());
    }
    match value.as_u64() {
        Some(number) => whole_text(number),
        None => ValueText::Missing,
    }
}

/// The digits of a whole number, up to the greatest of the text forms.
pub(crate) fn whole_text<'a>(number: u64) -> ValueText<'a>
    ensures { text_view result ≡ spec.whole_text number }
{
    if number <= 9_999_999_999_999_999_999 {
        ValueText::Number(Digits::new(number))
    } else {
        ValueText::Missing
    }
}

/// The text of the last member of a name; a text that is in no form where there is none.
pub(crate) fn text_named<'b>(members: &'b [MemberText<'_>], name: &[u8]) -> &'b [u8]
    ensures { result.now ≡ form.text_named (map member_view members.now) name.now }
{
    match member_named(members, name) {
        Some(member) => match &member.text {
            ValueText::Missing => b"\0",
            ValueText::Number(digits) => digits.as_slice(),
            ValueText::String(text) => text,
        },
        None => b"\0",
    }
}

fn member_named<'a, 'b>(members: &'b [MemberText<'a>], name: &[u8]) -> Option<&'b MemberText<'a>>
    ensures { option_map (λ member. member_view member.now) result
        ≡ form.member_named (map member_view members.now) name.now }
{
    let mut found = None;
    for member in members {
        if member.name == name {
            found = Some(member);
        }
    }
    found
}

/// Whether every member has one of these names.
pub(crate) fn are_named(names: &[&[u8]], members: &[MemberText<'_>]) -> bool
    ensures { result ≡ form.are_named (map (λ name. name.now) names.now)
        (map member_view members.now) }
{
    all_among(names, members)
}

fn all_among(names: &[&[u8]], members: &[MemberText<'_>]) -> bool
    ensures { result
        ≡ list_all
        (λ member. list_any (bytes_eq member.name.now) (map (λ name. name.now) names.now))
        members.now }
{
    members.iter().all(|member| is_among(member.name, names))
}

fn is_among(text: &[u8], names: &[&[u8]]) -> bool
    ensures { result ≡ list_any (bytes_eq text.now) (map (λ name. name.now) names.now) }
{
    is_one_of(text, names)
}

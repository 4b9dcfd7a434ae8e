//! The members of a flat object, read token by token. Most bodies are one; any other is read as
//! a value.
ghost use Rattle.std.specs.Prelude.{◌≡◌, ◌<◌, ℕ, List, Some, length, map, slice_index, ◌==◌, IfOk, IfSome};
ghost use Rattle.json.specs.Json as json;
ghost use Rattle.serde_json.specs.Data.{Data, Members, no_members, unsigned};
ghost use Rattle.serde_json.specs.Read.{converted, number_of, of_json, of_members};
ghost use Rattle.agent_events.specs.JsonForms as form;
ghost use Rattle.agent_http.specs.Bodies as spec;
ghost use Rattle.agent_http.specs.Views.{member_view, text_view};

use crate::members::{MemberText, ValueText, whole_text};
use fast_float::Numeral;
use json::{Reader, Scratch, Token};
use money_units::NoMemory;
use std::alloc::Global;
use std::str;

/// The members of a body that is an object of texts and whole numbers, as they stand; none of
/// any other body.
pub(crate) fn flat_members<'a>(
    alloc: Global,
    body: &'a [u8],
    scratch: &'a mut Scratch,
) -> Result<Option<Vec<MemberText<'a>>>, NoMemory>
    ensures { IfOk result
        (λ found. IfSome found
        (λ members. (verb : List ℕ)
        → form.asked_by_members verb (map member_view members.items)
        ≡ spec.asked_by_body verb body.now)) }
{
    let Ok(text) = str::from_utf8(body) else {
        return Ok(None);
    };
    let mut reader = Reader::new(text, scratch)?;
    let Some(Token::BeginObject) = reader.next() else {
        return Ok(None);
    };
    let found = members_behind(alloc, &mut reader)?;
    if reader.next().is_some() {
        return Ok(None);
    }
    Ok(found)
}

// The members up to the brace that closes their object.
fn members_behind<'a>(
    alloc: Global,
    reader: &mut Reader<'a>,
) -> Result<Option<Vec<MemberText<'a>>>, NoMemory>
    ensures { IfOk result
        (λ found. IfSome found
        (λ members. (object : Members)
        × (converted (λ ms. of_members ms no_members)
        (json.members (json.value 126) (length reader.old) reader.old)
        ≡ Some (object, reader.new))
        × ((verb : List ℕ)
        → form.asked_by_members verb (map member_view members.items)
        ≡ form.asked_by_members verb (spec.members_in object)))) }
{
    let mut members = Vec::new(alloc);
    'turns: loop {
        match reader.next_key() {
            Ok(Some(name)) => match next_text(reader) {
                Some(text) => members.push(MemberText {
                    name: name.as_bytes(),
                    text,
                })?,
                None => return Ok(None),
            },
            Ok(None) => return Ok(Some(members)),
            Err(_) => return Ok(None),
        }
    }
}

// The text of the next value, where it is a text or a whole number.
fn next_text<'a>(reader: &mut Reader<'a>) -> Option<ValueText<'a>>
    ensures { IfSome result
        (λ text. (value : Data)
        × (converted of_json (json.value 126 reader.old) ≡ Some (value, reader.new))
        × (text_view text ≡ spec.text_of value)
        × (length reader.new < length reader.old)) }
{
    match reader.next() {
        Some(Token::String(text)) => Some(ValueText::String(text.as_bytes())),
        Some(Token::Number(text)) => number_text(text),
        _ => None,
    }
}

// The digits of a whole number.
fn number_text<'a>(text: &str) -> Option<ValueText<'a>>
    ensures { IfSome result
        (λ found. (number : ℕ) × (number_of text.now ≡ Some (unsigned number))
        × (text_view found ≡ spec.whole_text number)) }
{
    if has_minus(text.as_bytes()) {
        return None;
    }
    match Numeral::scan(text.as_bytes()).to_u64() {
        Some(number) => Some(whole_text(number)),
        None => None,
    }
}

fn has_minus(text: &[u8]) -> bool
    ensures { result ≡ (slice_index text.now 0 == 45) }
{
    !text.is_empty() && text[0] == b'-'
}

//! The JSON body of a reply.
ghost use Rattle.std.specs.Prelude.{◌≡◌, ◌++◌, [], flat_map, map, slice_get, IfOk, OnOk};
ghost use Rattle.std.specs.Option.{option_copied};
ghost use Rattle.serde_json.specs.Data.{object};
ghost use Rattle.serde_json.specs.Written.{compact_text};
ghost use Rattle.agent_http.specs.ReplyBodies as spec;
ghost use Rattle.agent_http.specs.Members.{member_tokens, members_at};

use crate::reply_names::{Member, members_of};
use agent_events::Reply;
use json::Writer;
use money_units::{Bytes, NoMemory};
use script_text::reply_fields;
use std::alloc::Global;

/// The compact JSON object of a reply's texts by their names.
pub(crate) fn json_body(alloc: Global, reply: &Reply) -> Result<Vec<u8>, NoMemory>
    ensures { IfOk result (λ body. body.items ≡ spec.json_body reply.now) }
{
    let fields = reply_fields(alloc, reply)?;
    object_text(alloc, members_of(reply), without_ok(fields.as_slice()))
}

fn without_ok(texts: &[Bytes]) -> &[Bytes]
    ensures { result.now ≡ spec.without_ok texts.now }
{
    match texts {
        [] => &[],
        [first, rest @ ..] => {
            if first.as_slice() == b"ok".as_slice() {
                rest
            } else {
                texts
            }
        }
    }
}

// The object of these members; one whose place has no text isn't among them.
fn object_text(alloc: Global, members: &[Member], texts: &[Bytes]) -> Result<Vec<u8>, NoMemory>
    ensures { IfOk result (λ body. body.items ≡ compact_text
        (object (members_at (map (λ member. (member.0.now, member.1)) members.now) texts.now))) }
{
    let mut out = Writer::new(Vec::with_capacity(alloc, 128)?);
    out.begin_object()?;
    write_members(&mut out, members, texts)?;
    out.end_object()?;
    Ok(out.into_inner())
}

fn write_members(out: &mut Writer, members: &[Member], texts: &[Bytes]) -> Result<(), NoMemory>
    ensures tokens { OnOk result (out.new.tokens ≡ out.old.tokens
        ++ flat_map (λ member. member_tokens member.0.now (slice_get texts.now member.1))
        members.now) }
    ensures before { OnOk result (out.new.before ≡ out.old.before) }
{
    for member in members {
        write_member(out, member.0, texts.get(member.1))?;
    }
    Ok(())
}

fn write_member(out: &mut Writer, name: &str, text: Option<&Bytes>) -> Result<(), NoMemory>
    ensures tokens { OnOk result (out.new.tokens
        ≡ out.old.tokens ++ member_tokens name.now (option_copied text.entry)) }
    ensures before { OnOk result (out.new.before ≡ out.old.before) }
{
    let Some(text) = text else {
        return Ok(());
    };
    // The texts that a reply is made of are ASCII.
    let Ok(text) = str::from_utf8(text.as_slice()) else {
        return Err(NoMemory);
    };
    out.key(name)?;
    out.string(text)?;
    Ok(())
}

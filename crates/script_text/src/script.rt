//! The items of a script.
ghost use Rattle.std.specs.Prelude.{◌≡◌, drop, map, slice_get, IfOk, OnOk, Result};
ghost use Rattle.csv.specs.Reading.{records, default_config, strip_bom};
ghost use Rattle.agent_events.specs.Forms.{is_key_text};
ghost use Rattle.agent_events.specs.Items.{asked_by, script_item};

use crate::records::Records;
use crate::rows::{Fields, slices_of};
use agent_events::{Asked, KeyText, ScriptItem};
use money_units::{NoMemory, all_visible};
use request_fields::{FormFault, asked_by, moment_of};
use std::alloc::Global;
use std::marker::Model;

/// The items of a script that are still to come, which contracts see as the list of them: each record of the text is a moment, a
/// key, a verb and the verb's fields. A record of fewer fields, or whose moment or key isn't in its form, is a bad item. No more
/// than one is in memory.
#[derive(Drop)]
pub struct ScriptItems<'a> {
    records: Records<'a>,
}

impl<'a> Model for ScriptItems<'a> {
    ghost use Rattle.std.specs.Prelude.{List, map};
    ghost use Rattle.agent_events.specs.Items.{script_item};
    ghost use Rattle.agent_events.specs.declared.item.ScriptItem.{ScriptItem};

    ghost Value = { List ScriptItem };

    ghost view = { λ items. map script_item items.records };
}

impl<'a> ScriptItems<'a> {
    /// All items of a script.
    pub fn new(alloc: Global, bytes: &'a [u8]) -> ScriptItems<'a>
        ensures { result ≡ map script_item (records default_config (strip_bom bytes.now)) }
    {
        ScriptItems {
            records: Records::new(alloc, bytes),
        }
    }

    /// The next item, or `None` exactly where none is to come. After `NoMemory` it may be passed over.
    pub fn next(&mut self, alloc: Global) -> Result<Option<ScriptItem>, NoMemory>
        ensures next { IfOk result (λ item. item ≡ slice_get self.old 0) }
        ensures rest { OnOk result (self.new ≡ drop 1 self.old) }
    {
        match self.records.next(alloc)? {
            Some(row) => Ok(Some(item_of(alloc, &row)?)),
            None => Ok(None),
        }
    }
}

fn item_of(alloc: Global, row: &Fields) -> Result<ScriptItem, NoMemory>
    ensures { IfOk result (λ item. item ≡ script_item row.now) }
{
    let texts = slices_of(alloc, row.as_slice())?;
    if texts.len() < 3 {
        return Ok(ScriptItem::Bad);
    }
    let Some(moment) = moment_of(texts[0]) else {
        return Ok(ScriptItem::Bad);
    };
    if !is_key_text(texts[1]) {
        return Ok(ScriptItem::Bad);
    }
    let key = KeyText::from_slice(alloc, texts[1])?;
    let asked = what_is_asked(alloc, texts[2], &texts[3..])?;
    Ok(ScriptItem::Good { moment, key, asked })
}

// What a verb asks by its fields, or the place of the first field that isn't in its form.
fn what_is_asked(alloc: Global, verb: &[u8], fields: &[&[u8]]) -> Result<Asked, NoMemory>
    ensures { IfOk result (λ asked. asked
        ≡ asked_by verb.now (map (λ text. text.now) fields.now)) }
{
    match asked_by(alloc, verb, fields) {
        Ok(request) => Ok(Ok(request)),
        Err(FormFault::Place(place)) => Ok(Err(place)),
        Err(FormFault::NoMemory) => Err(NoMemory),
    }
}

// At most 64 visible bytes.
fn is_key_text(key: &[u8]) -> bool
    ensures { result ≡ is_key_text key.now }
{
    key.len() <= 64 && all_visible(key)
}

//! The line of a reply.
ghost use Rattle.std.specs.Prelude.{◌≡◌, ◌++◌, OnOk, OnErr};
ghost use Rattle.csv.specs.Writing.{default_writer, row_text};
ghost use Rattle.agent_events.specs.AnswerTexts.{answer_texts};

use crate::reply_field_texts::reply_fields;
use crate::rows::append_fields;
use agent_events::Reply;
use money_units::NoMemory;
use std::alloc::Global;

/// Appends the line of a reply: `ok`, the reply's name and its texts, or `no`, the number of the refusal and its
/// values, with commas between them and a line feed. After `NoMemory` `out` is as before.
pub fn reply_line(alloc: Global, reply: &Reply, out: &mut Vec<u8>) -> Result<(), NoMemory>
    ensures ok { OnOk result
        (out.new.items ≡ out.old.items ++ row_text default_writer (answer_texts reply.now)) }
    ensures err { OnErr result (out.new.items ≡ out.old.items) }
{
    let fields = reply_fields(alloc, reply)?;
    append_fields(alloc, &fields, out)
}

//! A prepared answer.
ghost use Rattle.std.specs.Prelude.{◌≡◌, [], true, All, IfOk, IfSome};
ghost use Rattle.register_desk.specs.Answered.{events_of};
ghost use Rattle.event_rows.specs.InForm.{InForm, has_loads};
ghost use Rattle.register_desk.specs.Rows.{rows_of};

use crate::answering::Answered;
use crate::ready_change::ReadyChange;
use agent_events::Reply;
use agent_keeper::Batch;
use event_rows::encode;
use money_units::{Bytes, NoMemory};
use std::alloc::Global;

/// The reply to a request, and its events with their rows and all that they change: everything that `commit` needs.
#[derive(Drop)]
pub struct Prepared {
    pub reply: Reply,
    pub base: u64,
    pub batch: Batch,
    pub change: Option<ReadyChange>,
}

impl Prepared {
    /// The reply.
    pub fn reply(&self) -> &Reply
        ensures { result.now ≡ self.now.reply }
    {
        &self.reply
    }

    /// The number of events before it.
    pub fn base(&self) -> u64
        ensures { result ≡ self.now.base }
    {
        self.base
    }

    /// Gives it up.
    pub fn discard(self) {
        let Prepared {
            reply,
            base: _,
            batch,
            change,
        } = self;
        give_up_reply(reply);
        give_up_batch(batch);
        give_up_changes(change);
    }
}

// Each part is given up by itself: what a value may be, times what the next one may be, are otherwise as many ways to go.
pub(crate) fn give_up_reply(_reply: Reply) {}

pub(crate) fn give_up_batch(_batch: Batch) {}

pub(crate) fn give_up_change(_change: ReadyChange) {}

fn give_up_changes(change: Option<ReadyChange>) {
    if let Some(change) = change {
        give_up_change(change);
    }
}

// Gives an answer up that isn't handed out.
pub(crate) fn give_up_answer(answered: Answered) {
    let Answered { reply, change } = answered;
    give_up_reply(reply);
    give_up_changes(change);
}

// The rows of the events that a change notes, as what the keeper is to append. A class has as many loads as its row may have.
pub(crate) fn batch_of(alloc: Global, change: &Option<ReadyChange>) -> Result<Batch, NoMemory>
    requires { IfSome change.now (λ noted. has_loads noted.event.kind ≡ true) }
    ensures rows { IfOk result (λ batch. batch.rows ≡ rows_of (events_of change.now)) }
    ensures puts { IfOk result (λ batch. batch.puts ≡ []) }
    ensures removes { IfOk result (λ batch. batch.removes ≡ []) }
    ensures in_form { IfOk result (λ batch. All InForm (events_of change.now)) }
{
    let mut batch = Batch::new(alloc);
    if let Some(change) = change {
        let row = Bytes::from_vec(encode(alloc, change.event())?);
        batch.rows.push(row)?;
    }
    Ok(batch)
}

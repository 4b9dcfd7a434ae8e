//! The answer to a dealer's batch: one request, whose lines are answered in order and kept together.
ghost use Rattle.std.specs.Prelude.{◌≡◌, ◌≢◌, ◌≤◌, ◌++◌, [], IfOk, IsErrOf, IsTrue, OnErr, OnOk, flat_map, true};
ghost use Rattle.agent_keeper.specs.Calls.{Counts, GoesOn};
ghost use Rattle.agent_keeper.specs.declared.fault.KeepFault.{KeepFault as Fault};
ghost use Rattle.connection_service.specs.Answers.{Gets, IsAnswered, batch_text, kept_at, said_to_batch, text_of};
ghost use Rattle.connection_service.specs.Serving.{at_of};
ghost use Rattle.dealer_lines.specs.Lines.{all_lines};
ghost use Rattle.register_desk.specs.Answered.{IsCaller};
ghost use Rattle.register_desk.specs.Rows.{TellsRowsOf};
ghost use Rattle.register_laws.specs.Lawful.{own_at};
ghost use Rattle.register_machine.specs.journal.Journals.{Journal, last_moment};
ghost use Rattle.register_machine.specs.run.Scripts.{reply_line};

use crate::answering::later;
use crate::texts::{Text, kept_text, reply_text};
use agent_edge::Clock;
use agent_events::{Asked, Caller, Refusal, Reply};
use agent_http::batch_bytes;
use agent_keeper::{KeepFault, Keeper};
use money_units::{Bytes, Moment, NoMemory};
use register_desk::{Desk, LedgerFault};
use script_text::reply_line;
use std::alloc::Global;

// The lines of replies, one after another.
fn lines_of(alloc: Global, replies: &[Reply]) -> Result<Vec<u8>, NoMemory>
    ensures { IfOk result (λ lines. lines.items ≡ flat_map reply_line replies.now) }
{
    let mut lines = Vec::new(alloc);
    for reply in replies {
        reply_line(alloc, reply, &mut lines)?;
    }
    Ok(lines)
}

// The text of a batch, by who sent it and the replies to its lines.
fn batch_text(
    alloc: Global,
    caller: Caller,
    replies: &[Reply],
    last: bool,
) -> Result<Bytes, NoMemory>
    ensures { IfOk result (λ bytes. bytes ≡ batch_text caller replies.now last) }
{
    match caller {
        Caller::Dealer(_) => {
            let lines = lines_of(alloc, replies)?;
            Ok(Bytes::from_vec(batch_bytes(alloc, &lines, last)?))
        }
        _ => reply_text(alloc, &Reply::Refused(Refusal::NoRight), last),
    }
}

// The text of a batch, whose events are kept.
fn kept_lines<K: Keeper>(
    alloc: Global,
    desk: &mut Desk,
    keeper: &mut K,
    moment: Moment,
    caller: Caller,
    lines: &[Asked],
    last: bool,
) -> Result<Bytes, KeepFault>
    requires attached { IsTrue (K.is_attached keeper.old) }
    requires told { TellsRowsOf (K.tells keeper.old) desk.old.book.journal }
    requires moment { last_moment desk.old.book.journal ≤ moment }
    requires caller { IsCaller desk.old.book.journal caller }
    requires lines { all_lines lines.now ≡ true }
    ensures bytes { IfOk result (λ bytes. bytes
        ≡ (said_to_batch last lines.now (own_at desk.old.book.journal moment caller)).bytes) }
    ensures journal { OnOk result (desk.new.book.journal
        ≡ desk.old.book.journal ++
        (said_to_batch last lines.now (own_at desk.old.book.journal moment caller)).events) }
    ensures err { OnErr result (desk.new.book.journal ≡ desk.old.book.journal) }

    // The keeper is asked for nothing where nothing is to be kept, so it can't fail there.
    ensures failed { IsErrOf result Fault.Failed
        → (said_to_batch last lines.now (own_at desk.old.book.journal moment caller)).events ≢ [] }
    ensures told { TellsRowsOf (K.tells keeper.new) desk.new.book.journal }
    ensures attached { IsTrue (K.is_attached keeper.new) }
    ensures counted { Counts (K.faults keeper.old) (K.faults keeper.new) result }
    ensures was_honest { K.is_honest keeper.new → K.is_honest keeper.old }
    ensures goes_on { GoesOn K.moment K.gave keeper.old keeper.new }
{
    let prepared = match desk.prepare_batch(keeper, moment, caller, lines) {
        Ok(prepared) => prepared,
        Err(LedgerFault::NoMemory) => return Err(KeepFault::NoMemory),
    };
    let bytes = match batch_text(alloc, caller, prepared.replies(), last) {
        Ok(bytes) => bytes,
        Err(NoMemory) => {
            prepared.discard();
            return Err(KeepFault::NoMemory);
        }
    };
    desk.commit_batch(keeper, prepared)?;
    Ok(bytes)
}

// Answers a batch at a moment.
fn answer_lines<K: Keeper>(
    alloc: Global,
    desk: &mut Desk,
    keeper: &mut K,
    moment: Moment,
    caller: Caller,
    lines: &[Asked],
    last: bool,
) -> Text
    requires attached { IsTrue (K.is_attached keeper.old) }
    requires told { TellsRowsOf (K.tells keeper.old) desk.old.book.journal }
    requires moment { last_moment desk.old.book.journal ≤ moment }
    requires caller { IsCaller desk.old.book.journal caller }
    requires lines { all_lines lines.now ≡ true }
    ensures gets { Gets last
        (said_to_batch last lines.now (own_at desk.old.book.journal moment caller))
        (kept_at desk.old.book.journal (K.faults keeper.old))
        (text_of last result)
        (kept_at desk.new.book.journal (K.faults keeper.new)) }
    ensures grown { (more : Journal) × (desk.new.book.journal ≡ desk.old.book.journal ++ more) }
    ensures told { TellsRowsOf (K.tells keeper.new) desk.new.book.journal }
    ensures attached { IsTrue (K.is_attached keeper.new) }
    ensures was_honest { K.is_honest keeper.new → K.is_honest keeper.old }
    ensures goes_on { GoesOn K.moment K.gave keeper.old keeper.new }
{
    kept_text(kept_lines(alloc, desk, keeper, moment, caller, lines, last))
}

// Answers a batch at the next reading of the clock.
pub(crate) fn answer_batch<K: Keeper, C: Clock>(
    alloc: Global,
    desk: &mut Desk,
    keeper: &mut K,
    clock: &mut C,
    operator: &[u8],
    key: &[u8],
    lines: &[Asked],
    last: bool,
) -> Text
    requires attached { IsTrue (K.is_attached keeper.old) }
    requires told { TellsRowsOf (K.tells keeper.old) desk.old.book.journal }
    requires lines { all_lines lines.now ≡ true }
    ensures answered { IsAnswered operator.now key.now last (said_to_batch last lines.now)
        (at_of desk.old.book.journal (K.faults keeper.old) (C.last clock.old) (C.coming clock.old))
        (text_of last result)
        (at_of desk.new.book.journal (K.faults keeper.new)
        (C.last clock.new) (C.coming clock.new)) }
    ensures grown { (more : Journal) × (desk.new.book.journal ≡ desk.old.book.journal ++ more) }
    ensures told { TellsRowsOf (K.tells keeper.new) desk.new.book.journal }
    ensures attached { IsTrue (K.is_attached keeper.new) }
    ensures was_honest { K.is_honest keeper.new → K.is_honest keeper.old }
    ensures goes_on { GoesOn K.moment K.gave keeper.old keeper.new }
{
    let moment = later(clock.now(), desk.last_moment());
    let caller = desk.caller_of(key, operator);
    answer_lines(alloc, desk, keeper, moment, caller, lines, last)
}

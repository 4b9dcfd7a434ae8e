//! The answers to a script: each item gets one line, behind what is kept.
ghost use Rattle.std.specs.Prelude.{◌≡◌, ◌≤◌, ◌++◌, Err, ℕ, drop, nat_lt, slice_get, IfOk, IsTrue, OnErr, OnOk};
ghost use Rattle.script_answers.specs.Runs.{CountsEnds, EndsAs, answer_behind};
ghost use Rattle.script_answers.specs.declared.answering.AnswerFault.{AnswerFault as Fault};
ghost use Rattle.script_answers.specs.declared.answering.AnswerFault.TheVariants as fault;
ghost use Rattle.agent_events.specs.declared.item.ScriptItem.{ScriptItem as Item};
ghost use Rattle.agent_events.specs.declared.reply.Reply.{Reply as Said};
ghost use Rattle.agent_keeper.specs.Calls.{Counts};
ghost use Rattle.register_desk.specs.Answered.{IsCaller, events_of};
ghost use Rattle.register_desk.specs.Rows.{TellsRowsOf};
ghost use Rattle.register_laws.specs.Lawful.{own_at};
ghost use Rattle.register_machine.specs.journal.Journals.{Journal, last_moment};
ghost use Rattle.register_machine.specs.run.Answers.{answer};
ghost use Rattle.register_machine.specs.run.Scripts as run;

use agent_edge::{Sink, write_whole};
use agent_events::{Caller, Refusal, Reply, Request, ScriptItem};
use agent_keeper::{KeepFault, Keeper};
use household_fold::Steps;
use money_units::{Moment, NoMemory};
use register_desk::{Desk, LedgerFault};
use script_text::{ScriptItems, reply_line};
use std::alloc::Global;
use std::sync::ledger::Ledger as StepLedger;

/// Why the answers of a script end early.
#[derive(Clone, Copy, Debug, PartialEq, Eq)]
pub enum AnswerFault {
    /// A line couldn't be written in full; its item is answered and kept.
    Write,
    /// The keeper failed; the item in hand is not answered.
    Keeper,
    /// Memory was wanting; the item in hand is not answered.
    NoMemory,
}

fn line_of(alloc: Global, reply: &Reply) -> Result<Vec<u8>, NoMemory>
    ensures { IfOk result (λ line. line.items ≡ run.reply_line reply.now) }
{
    let mut line = Vec::new(alloc);
    reply_line(alloc, reply, &mut line)?;
    Ok(line)
}

// Answers a request with its line, and keeps its event before the line is handed out.
fn answer_request<K: Keeper, L: StepLedger>(
    alloc: Global,
    desk: &mut Desk,
    keeper: &mut K,
    moment: Moment,
    caller: Caller,
    request: &Request,
    steps: &mut Steps<L>,
) -> Result<Vec<u8>, KeepFault>
    requires attached { IsTrue (K.is_attached keeper.old) }
    requires told { TellsRowsOf (K.tells keeper.old) desk.old.book.journal }
    requires moment { last_moment desk.old.book.journal ≤ moment }
    requires caller { IsCaller desk.old.book.journal caller }
    ensures line { IfOk result (λ line. line.items
        ≡ run.reply_line (answer (own_at desk.old.book.journal moment caller) request.now).reply) }
    ensures journal { OnOk result (desk.new.book.journal
        ≡ desk.old.book.journal ++
        (answer (own_at desk.old.book.journal moment caller) request.now).events) }
    ensures err { OnErr result (desk.new.book.journal ≡ desk.old.book.journal) }
    ensures told { TellsRowsOf (K.tells keeper.new) desk.new.book.journal }
    ensures attached { IsTrue (K.is_attached keeper.new) }
    ensures counted { Counts (K.faults keeper.old) (K.faults keeper.new) result }
    ensures was_honest { K.is_honest keeper.new → K.is_honest keeper.old }
{
    let prepared = match desk.prepare(keeper, moment, caller, request, steps) {
        Ok(prepared) => prepared,
        Err(LedgerFault::NoMemory) => return Err(KeepFault::NoMemory),
    };
    let line = match line_of(alloc, prepared.reply()) {
        Ok(line) => line,
        Err(NoMemory) => {
            prepared.discard();
            return Err(KeepFault::NoMemory);
        }
    };
    desk.commit(keeper, prepared)?;
    Ok(line)
}

fn refusal_line(alloc: Global, refusal: Refusal) -> Result<Vec<u8>, KeepFault>
    ensures line { IfOk result (λ line. line.items ≡ run.reply_line (Said.Refused refusal)) }
    ensures counted { (count : ℕ) → Counts count count result }
{
    Ok(line_of(alloc, &Reply::Refused(refusal))?)
}

fn is_before(moment: Moment, last: Moment) -> bool
    ensures { result ≡ nat_lt moment last }
{
    moment.seconds() < last.seconds()
}

// Answers what is asked at a moment with a key, with its line.
fn answer_at<K: Keeper, L: StepLedger>(
    alloc: Global,
    operator: &[u8],
    desk: &mut Desk,
    keeper: &mut K,
    moment: Moment,
    key: &[u8],
    asked: &Result<Request, u8>,
    steps: &mut Steps<L>,
) -> Result<Vec<u8>, KeepFault>
    requires attached { IsTrue (K.is_attached keeper.old) }
    requires told { TellsRowsOf (K.tells keeper.old) desk.old.book.journal }
    ensures line { IfOk result (λ line. line.items
        ≡ run.reply_line (answer_behind operator.now desk.old.book.journal
        (Item.Good moment key.now asked.now)).reply) }
    ensures journal { OnOk result (desk.new.book.journal ≡ desk.old.book.journal
        ++ (answer_behind operator.now desk.old.book.journal
        (Item.Good moment key.now asked.now)).events) }
    ensures err { OnErr result (desk.new.book.journal ≡ desk.old.book.journal) }
    ensures told { TellsRowsOf (K.tells keeper.new) desk.new.book.journal }
    ensures attached { IsTrue (K.is_attached keeper.new) }
    ensures counted { Counts (K.faults keeper.old) (K.faults keeper.new) result }
    ensures was_honest { K.is_honest keeper.new → K.is_honest keeper.old }
{
    let last = desk.last_moment();
    if is_before(moment, last) {
        return refusal_line(alloc, Refusal::StampBack(last));
    }
    match asked {
        Err(place) => refusal_line(alloc, Refusal::BadForm(*place)),
        Ok(request) => {
            let caller = desk.caller_of(key, operator);
            answer_request(alloc, desk, keeper, moment, caller, request, steps)
        }
    }
}

// Answers one item with its line.
fn answer_item<K: Keeper, L: StepLedger>(
    alloc: Global,
    operator: &[u8],
    desk: &mut Desk,
    keeper: &mut K,
    item: &ScriptItem,
    steps: &mut Steps<L>,
) -> Result<Vec<u8>, KeepFault>
    requires attached { IsTrue (K.is_attached keeper.old) }
    requires told { TellsRowsOf (K.tells keeper.old) desk.old.book.journal }
    ensures line { IfOk result (λ line. line.items
        ≡ run.reply_line (answer_behind operator.now desk.old.book.journal item.now).reply) }
    ensures journal { OnOk result (desk.new.book.journal
        ≡ desk.old.book.journal ++
        (answer_behind operator.now desk.old.book.journal item.now).events) }
    ensures err { OnErr result (desk.new.book.journal ≡ desk.old.book.journal) }
    ensures told { TellsRowsOf (K.tells keeper.new) desk.new.book.journal }
    ensures attached { IsTrue (K.is_attached keeper.new) }
    ensures counted { Counts (K.faults keeper.old) (K.faults keeper.new) result }
    ensures was_honest { K.is_honest keeper.new → K.is_honest keeper.old }
{
    match item {
        ScriptItem::Bad => refusal_line(alloc, Refusal::BadForm(0)),
        ScriptItem::Good { moment, key, asked } => {
            answer_at(
                alloc,
                operator,
                desk,
                keeper,
                *moment,
                key.as_slice(),
                asked,
                steps,
            )
        }
    }
}

// Gives an item up.
fn close(_item: ScriptItem) {}

// Answers an item that was read with its line.
fn answer_read<K: Keeper, L: StepLedger>(
    alloc: Global,
    operator: &[u8],
    desk: &mut Desk,
    keeper: &mut K,
    item: ScriptItem,
    steps: &mut Steps<L>,
) -> Result<Vec<u8>, KeepFault>
    requires attached { IsTrue (K.is_attached keeper.old) }
    requires told { TellsRowsOf (K.tells keeper.old) desk.old.book.journal }
    ensures line { IfOk result (λ line. line.items
        ≡ run.reply_line (answer_behind operator.now desk.old.book.journal item).reply) }
    ensures journal { OnOk result (desk.new.book.journal
        ≡ desk.old.book.journal ++
        (answer_behind operator.now desk.old.book.journal item).events) }
    ensures err { OnErr result (desk.new.book.journal ≡ desk.old.book.journal) }
    ensures told { TellsRowsOf (K.tells keeper.new) desk.new.book.journal }
    ensures attached { IsTrue (K.is_attached keeper.new) }
    ensures counted { Counts (K.faults keeper.old) (K.faults keeper.new) result }
    ensures was_honest { K.is_honest keeper.new → K.is_honest keeper.old }
{
    let line = answer_item(alloc, operator, desk, keeper, &item, steps);
    close(item);
    line
}

// The next item of a script.
fn next_item(alloc: Global, items: &mut ScriptItems) -> Result<Option<ScriptItem>, AnswerFault>
    ensures next { IfOk result (λ item. item ≡ slice_get items.old 0) }
    ensures rest { OnOk result (items.new ≡ drop 1 items.old) }
    ensures fault { (why : Fault) → result ≡ Err why → why ≡ fault.NoMemory }
{
    match items.next(alloc) {
        Ok(item) => Ok(item),
        Err(NoMemory) => Err(AnswerFault::NoMemory),
    }
}

// Answers the items that are to come in turn. A line is written before the next item is begun.
fn answer_items<K: Keeper, O: Sink, L: StepLedger>(
    alloc: Global,
    operator: &[u8],
    desk: &mut Desk,
    keeper: &mut K,
    items: &mut ScriptItems,
    out: &mut O,
    steps: &mut Steps<L>,
) -> Result<(), AnswerFault>
    requires attached { IsTrue (K.is_attached keeper.old) }
    requires told { TellsRowsOf (K.tells keeper.old) desk.old.book.journal }
    ensures ends { EndsAs operator.now desk.old.book.journal items.old (K.tells keeper.new)
        (O.contents out.old) (O.contents out.new) result }
    ensures counts { CountsEnds (K.faults keeper.old) (K.faults keeper.new) (O.faults out.old)
        (O.faults out.new) result }
    ensures grown { (more : Journal) × (desk.new.book.journal ≡ desk.old.book.journal ++ more) }
    ensures told { TellsRowsOf (K.tells keeper.new) desk.new.book.journal }
    ensures was_honest { K.is_honest keeper.new → K.is_honest keeper.old }
{
    while let Some(item) = next_item(alloc, items)? {
        match answer_read(alloc, operator, desk, keeper, item, steps) {
            Ok(line) => {
                if write_whole(out, &line).is_err() {
                    return Err(AnswerFault::Write);
                }
            }
            Err(KeepFault::Failed) => return Err(AnswerFault::Keeper),
            Err(KeepFault::NoMemory) => return Err(AnswerFault::NoMemory),
        }
    }
    Ok(())
}

/// Answers the items of a script with their lines, in turn, behind the journal of the desk. No more than one item is in memory.
pub fn answer_script<K: Keeper, O: Sink, L: StepLedger>(
    alloc: Global,
    operator: &[u8],
    desk: &mut Desk,
    keeper: &mut K,
    script: &[u8],
    out: &mut O,
    steps: &mut Steps<L>,
) -> Result<(), AnswerFault>
    requires attached { IsTrue (K.is_attached keeper.old) }
    requires told { TellsRowsOf (K.tells keeper.old) desk.old.book.journal }
    ensures ends { EndsAs operator.now desk.old.book.journal (run.script_items script.now)
        (K.tells keeper.new)
        (O.contents out.old) (O.contents out.new) result }
    ensures counts { CountsEnds (K.faults keeper.old) (K.faults keeper.new) (O.faults out.old)
        (O.faults out.new) result }
    ensures grown { (more : Journal) × (desk.new.book.journal ≡ desk.old.book.journal ++ more) }
    ensures told { TellsRowsOf (K.tells keeper.new) desk.new.book.journal }
    ensures was_honest { K.is_honest keeper.new → K.is_honest keeper.old }
{
    let mut items = ScriptItems::new(alloc, script);
    answer_items(alloc, operator, desk, keeper, &mut items, out, steps)
}

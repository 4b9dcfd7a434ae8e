//! The answer to a request: it is prepared, its reply is made, and what it brings is kept before the reply is handed out.
ghost use Rattle.std.specs.Prelude.{◌≡◌, ◌≢◌, ◌≤◌, ◌++◌, ℕ, [], IfOk, IsErrOf, IsTrue, OnErr, OnOk, max, true};
ghost use Rattle.agent_keeper.specs.Calls.{Counts, GoesOn};
ghost use Rattle.agent_keeper.specs.declared.fault.KeepFault.{KeepFault as Fault};
ghost use Rattle.connection_service.specs.Answers.{AnswersBy, Gets, IsAnswered, batch_asks_lines, kept_at, said_to_bad_form, said_to_request, text_of};
ghost use Rattle.connection_service.specs.Serving.{at_of};
ghost use Rattle.register_desk.specs.Answered.{IsCaller};
ghost use Rattle.agent_http.specs.Bytes.{bytes_of};
ghost use Rattle.register_desk.specs.Rows.{TellsRowsOf};
ghost use Rattle.register_laws.specs.Lawful.{own_at};
ghost use Rattle.register_machine.specs.journal.Journals.{Journal, last_moment};
ghost use Rattle.register_machine.specs.run.Answers.{answer};

use crate::batches::answer_batch;
use crate::texts::{Text, kept_text, reply_text};
use agent_edge::Clock;
use agent_events::{Caller, Refusal, Reply, Request};
use agent_http::{Call, CallAsk};
use agent_keeper::{KeepFault, Keeper};
use household_fold::Steps;
use http_stream::HttpFault;
use money_units::{Bytes, Moment, NoMemory};
use register_desk::{Desk, LedgerFault};
use std::alloc::Global;
use std::sync::ledger::Ledger as StepLedger;

// The reply to a request, whose events are kept.
fn kept_reply<K: Keeper, L: StepLedger>(
    alloc: Global,
    desk: &mut Desk,
    keeper: &mut K,
    moment: Moment,
    caller: Caller,
    request: &Request,
    last: bool,
    steps: &mut Steps<L>,
) -> Result<Bytes, KeepFault>
    requires attached { IsTrue (K.is_attached keeper.old) }
    requires told { TellsRowsOf (K.tells keeper.old) desk.old.book.journal }
    requires moment { last_moment desk.old.book.journal ≤ moment }
    requires caller { IsCaller desk.old.book.journal caller }
    ensures bytes { IfOk result (λ bytes. bytes
        ≡ bytes_of (answer (own_at desk.old.book.journal moment caller) request.now).reply last) }
    ensures journal { OnOk result (desk.new.book.journal
        ≡ desk.old.book.journal ++
        (answer (own_at desk.old.book.journal moment caller) request.now).events) }
    ensures err { OnErr result (desk.new.book.journal ≡ desk.old.book.journal) }

    // The keeper is asked for nothing where nothing is to be kept, so it can't fail there.
    ensures failed { IsErrOf result Fault.Failed
        → (answer (own_at desk.old.book.journal moment caller) request.now).events ≢ [] }
    ensures told { TellsRowsOf (K.tells keeper.new) desk.new.book.journal }
    ensures attached { IsTrue (K.is_attached keeper.new) }
    ensures counted { Counts (K.faults keeper.old) (K.faults keeper.new) result }
    ensures was_honest { K.is_honest keeper.new → K.is_honest keeper.old }
    ensures goes_on { GoesOn K.moment K.gave keeper.old keeper.new }
{
    let prepared = match desk.prepare(keeper, moment, caller, request, steps) {
        Ok(prepared) => prepared,
        Err(LedgerFault::NoMemory) => return Err(KeepFault::NoMemory),
    };
    let bytes = match reply_text(alloc, prepared.reply(), last) {
        Ok(bytes) => bytes,
        Err(NoMemory) => {
            prepared.discard();
            return Err(KeepFault::NoMemory);
        }
    };
    desk.commit(keeper, prepared)?;
    Ok(bytes)
}

// Answers a request at a moment.
fn answer_request<K: Keeper, L: StepLedger>(
    alloc: Global,
    desk: &mut Desk,
    keeper: &mut K,
    moment: Moment,
    caller: Caller,
    request: &Request,
    last: bool,
    steps: &mut Steps<L>,
) -> Text
    requires attached { IsTrue (K.is_attached keeper.old) }
    requires told { TellsRowsOf (K.tells keeper.old) desk.old.book.journal }
    requires moment { last_moment desk.old.book.journal ≤ moment }
    requires caller { IsCaller desk.old.book.journal caller }
    ensures gets { Gets last
        (said_to_request last request.now (own_at desk.old.book.journal moment caller))
        (kept_at desk.old.book.journal (K.faults keeper.old))
        (text_of last result)
        (kept_at desk.new.book.journal (K.faults keeper.new)) }
    ensures grown { (more : Journal) × (desk.new.book.journal ≡ desk.old.book.journal ++ more) }
    ensures told { TellsRowsOf (K.tells keeper.new) desk.new.book.journal }
    ensures attached { IsTrue (K.is_attached keeper.new) }
    ensures was_honest { K.is_honest keeper.new → K.is_honest keeper.old }
    ensures goes_on { GoesOn K.moment K.gave keeper.old keeper.new }
{
    kept_text(kept_reply(alloc, desk, keeper, moment, caller, request, last, steps))
}

// The later of two moments.
pub(crate) fn later(reading: Moment, last: Moment) -> Moment
    ensures { result ≡ max reading last }
{
    if reading.seconds() < last.seconds() {
        last
    } else {
        reading
    }
}

// Answers a request at the next reading of the clock.
fn answer_read<K: Keeper, C: Clock, L: StepLedger>(
    alloc: Global,
    desk: &mut Desk,
    keeper: &mut K,
    clock: &mut C,
    operator: &[u8],
    key: &[u8],
    request: &Request,
    last: bool,
    steps: &mut Steps<L>,
) -> Text
    requires attached { IsTrue (K.is_attached keeper.old) }
    requires told { TellsRowsOf (K.tells keeper.old) desk.old.book.journal }
    ensures answered { IsAnswered operator.now key.now last (said_to_request last request.now)
        (at_of desk.old.book.journal (K.faults keeper.old) (C.last clock.old) (C.coming clock.old))
        (text_of last result)
        (at_of desk.new.book.journal (K.faults keeper.new)
        (C.last clock.new) (C.coming clock.new)) }
    ensures grown { (more : Journal) × (desk.new.book.journal ≡ desk.old.book.journal ++ more) }
    ensures told { TellsRowsOf (K.tells keeper.new) desk.new.book.journal }
    ensures attached { IsTrue (K.is_attached keeper.new) }
    ensures was_honest { K.is_honest keeper.new → K.is_honest keeper.old }
    ensures goes_on { GoesOn K.moment K.gave keeper.old keeper.new }
{
    let moment = later(clock.now(), desk.last_moment());
    let caller = desk.caller_of(key, operator);
    answer_request(alloc, desk, keeper, moment, caller, request, last, steps)
}

// The text for what isn't in its form at this place.
fn bad_form(alloc: Global, place: u8, last: bool) -> Text
    ensures { (journal : Journal) (faults : ℕ)
        → Gets last (said_to_bad_form last place) (kept_at journal faults)
        (text_of last result)
        (kept_at journal faults) }
{
    match reply_text(alloc, &Reply::Refused(Refusal::BadForm(place)), last) {
        Ok(bytes) => Ok(bytes),
        Err(_) => Err(HttpFault::S507),
    }
}

/// Answers what a call asks, with the text that is to be written.
pub(crate) fn answer_call<K: Keeper, C: Clock, L: StepLedger>(
    alloc: Global,
    desk: &mut Desk,
    keeper: &mut K,
    clock: &mut C,
    operator: &[u8],
    call: &Call,
    steps: &mut Steps<L>,
) -> Text
    requires attached { IsTrue (K.is_attached keeper.old) }
    requires told { TellsRowsOf (K.tells keeper.old) desk.old.book.journal }
    requires lines { batch_asks_lines call.now.ask ≡ true }
    ensures answers { AnswersBy operator.now call.now.key call.now.last call.now.ask
        (at_of desk.old.book.journal (K.faults keeper.old) (C.last clock.old) (C.coming clock.old))
        (text_of call.now.last result)
        (at_of desk.new.book.journal (K.faults keeper.new)
        (C.last clock.new) (C.coming clock.new)) }
    ensures grown { (more : Journal) × (desk.new.book.journal ≡ desk.old.book.journal ++ more) }
    ensures told { TellsRowsOf (K.tells keeper.new) desk.new.book.journal }
    ensures attached { IsTrue (K.is_attached keeper.new) }
    ensures was_honest { K.is_honest keeper.new → K.is_honest keeper.old }
    ensures goes_on { GoesOn K.moment K.gave keeper.old keeper.new }
{
    let key = call.key.as_slice();
    match &call.ask {
        CallAsk::Request(request) => answer_read(
            alloc, desk, keeper, clock, operator, key, request, call.last, steps,
        ),
        CallAsk::BadForm(place) => bad_form(alloc, *place, call.last),
        CallAsk::Batch(lines) => answer_batch(
            alloc,
            desk,
            keeper,
            clock,
            operator,
            key,
            lines.as_slice(),
            call.last,
        ),
        CallAsk::Fault(fault) => Err(*fault),
    }
}

//! The requests of a load but for its corrections, sent to a desk of their own.
ghost use Rattle.std.specs.Prelude.{◌≡◌, IsTrue, max};
ghost use Rattle.register_desk.specs.Rows.{TellsRowsOf};

use agent_events::{Caller, Request};
use agent_keeper::{Keeper, SureKeeper};
use household_fold::Steps;
use load_requests::{LoadRequests, Sent};
use money_units::{Moment, NoMemory};
use register_desk::{Desk, LedgerFault};
use std::alloc::Global;
use std::sync::ledger::Ledger as StepLedger;

/// How many events and sheets were kept.
pub(crate) struct Kept {
    pub(crate) events: u64,
    pub(crate) sheets: u64,
}

// The later of two moments.
fn later(moment: Moment, last: Moment) -> Moment
    ensures { result ≡ max moment last }
{
    if moment.seconds() < last.seconds() {
        last
    } else {
        moment
    }
}

fn is_correction(request: &Request) -> bool {
    match request {
        Request::FixPrice(_) => true,
        _ => false,
    }
}

// Sends a request of the operator, and keeps its event.
fn send<K: Keeper, L: StepLedger>(
    desk: &mut Desk,
    keeper: &mut K,
    sent: &Sent,
    steps: &mut Steps<L>,
) -> Result<(), NoMemory>
    requires attached { IsTrue (K.is_attached keeper.old) }
    requires told { TellsRowsOf (K.tells keeper.old) desk.old.book.journal }
    ensures attached { IsTrue (K.is_attached keeper.new) }
    ensures told { TellsRowsOf (K.tells keeper.new) desk.new.book.journal }
{
    let moment = later(sent.moment, desk.last_moment());
    let prepared = match desk.prepare(keeper, moment, Caller::Operator, &sent.request, steps) {
        Ok(prepared) => prepared,
        Err(LedgerFault::NoMemory) => return Err(NoMemory),
    };
    match desk.commit(keeper, prepared) {
        Ok(()) => Ok(()),
        Err(_) => Err(NoMemory),
    }
}

// Sends all requests that are no corrections.
fn send_all<K: Keeper, L: StepLedger>(
    alloc: Global,
    requests: &mut LoadRequests,
    desk: &mut Desk,
    keeper: &mut K,
    steps: &mut Steps<L>,
) -> Result<(), NoMemory>
    requires attached { IsTrue (K.is_attached keeper.old) }
    requires told { TellsRowsOf (K.tells keeper.old) desk.old.book.journal }
{
    while let Some(sent) = requests.next(alloc)? {
        if !is_correction(&sent.request) {
            send(desk, keeper, &sent, steps)?;
        }
    }
    Ok(())
}

/// What is kept of a load of so many households, at most 1,000, over so many days.
pub(crate) fn kept_of<L: StepLedger>(
    alloc: Global,
    households: u32,
    days: u32,
    steps: &mut Steps<L>,
) -> Result<Kept, NoMemory> {
    let mut requests = LoadRequests::new(alloc, 7, households.clamp(1, 1_000), days.min(2_000))?;
    let mut keeper = SureKeeper::new(alloc);
    let mut desk = match Desk::start(alloc, &mut keeper, steps) {
        Ok(desk) => desk,
        Err(_) => return Err(NoMemory),
    };
    send_all(alloc, &mut requests, &mut desk, &mut keeper, steps)?;
    let kept = Kept {
        events: desk.len(),
        sheets: desk.sheets() as u64,
    };
    desk.close();
    Ok(kept)
}

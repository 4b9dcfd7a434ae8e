//! What the operator sees at the end of a load.
ghost use Rattle.std.specs.Prelude.{◌≡◌, ◌<◌, ◌+◌, if◌then◌else◌, IfOk};
ghost use Rattle.agent_keeper.specs.Memory.{surely_kept};
ghost use Rattle.load_requests.specs.Summaries.{orders_in};
ghost use Rattle.load_requests.specs.Summaries as summaries;
ghost use Rattle.load_runs.specs.Looks as spec;
ghost use Rattle.register_desk.specs.Rows.{rows_of};
ghost use Rattle.register_laws.specs.Lawful.{book_behind};
ghost use Rattle.register_machine.specs.pricing.CorrectedOrders.{orders_of};

use crate::answers::ask;
use crate::running::one_if;
use agent_events::{BooksOfClasses, OrderRow, OrderState, Reply, Request};
use agent_keeper::SureKeeper;
use household_fold::Steps;
use money_units::NoMemory;
use register_desk::Desk;
use std::alloc::Global;
use std::sync::ledger::Ledger as StepLedger;

/// How many orders are filled, and how many stand on a sheet without being filled.
#[derive(Clone, Copy, Debug, PartialEq, Eq)]
pub struct OrdersCounted {
    pub filled: u64,
    pub unfilled: u64,
}

/// The reply to a look of the operator at the moment of the last event.
fn look<L: StepLedger>(
    desk: &mut Desk,
    keeper: &mut SureKeeper,
    request: &Request,
    steps: &mut Steps<L>,
) -> Result<Reply, NoMemory>
    requires told { (surely_kept keeper.old).rows ≡ rows_of desk.old.book.journal }
    ensures reply { IfOk result (λ reply. reply ≡ spec.look_at desk.old.book.journal request.now) }
    ensures journal { desk.new.book.journal ≡ desk.old.book.journal }
    ensures keeper { keeper.new ≡ keeper.old }
{
    let moment = desk.last_moment();
    let prepared = ask(desk, keeper, moment, request, steps)?;
    Ok(prepared.reply)
}

fn is_filled(state: OrderState) -> bool
    ensures { result ≡ summaries.is_filled state }
{
    match state {
        OrderState::Filled => true,
        _ => false,
    }
}

fn is_unfilled(state: OrderState) -> bool
    ensures { result ≡ summaries.is_unfilled state }
{
    match state {
        OrderState::Short => true,
        OrderState::Small => true,
        OrderState::Ceiling => true,
        OrderState::Letter => true,
        _ => false,
    }
}

fn with_filled(filled: u64, state: OrderState) -> u64
    requires { filled < 18446744073709551615 }
    ensures { result ≡ filled + (if summaries.is_filled state then 1 else 0) }
{
    filled + one_if(is_filled(state))
}

fn with_unfilled(unfilled: u64, state: OrderState) -> u64
    requires { unfilled < 18446744073709551615 }
    ensures { result ≡ unfilled + (if summaries.is_unfilled state then 1 else 0) }
{
    unfilled + one_if(is_unfilled(state))
}

/// Counts the filled and the unfilled among all orders, each by its state as a trace shows it.
pub(crate) fn count_orders(desk: &Desk) -> OrdersCounted
    ensures filled { result.filled
        ≡ orders_in summaries.is_filled (book_behind desk.now.book.journal) }
    ensures unfilled { result.unfilled
        ≡ orders_in summaries.is_unfilled (book_behind desk.now.book.journal) }
{
    count_rows(desk, desk.orders())
}

#[tactic(auto, using(crate::proofs::TracesCounted::count_one_more))]
fn count_rows(desk: &Desk, rows: &[OrderRow]) -> OrdersCounted
    requires { rows.now ≡ orders_of desk.now.book.journal }
    ensures filled { result.filled
        ≡ orders_in summaries.is_filled (book_behind desk.now.book.journal) }
    ensures unfilled { result.unfilled
        ≡ orders_in summaries.is_unfilled (book_behind desk.now.book.journal) }
{
    let mut filled = 0;
    let mut unfilled = 0;
    for row in rows {
        let state = desk.order_state(row);
        filled = with_filled(filled, state);
        unfilled = with_unfilled(unfilled, state);
    }
    OrdersCounted { filled, unfilled }
}

fn classes_in(alloc: Global, reply: Reply) -> BooksOfClasses
    ensures { result ≡ spec.classes_in reply }
{
    match reply {
        Reply::Books(books) => books.classes,
        _ => BooksOfClasses::new(alloc),
    }
}

/// The classes in the books.
pub(crate) fn classes_of<L: StepLedger>(
    alloc: Global,
    desk: &mut Desk,
    keeper: &mut SureKeeper,
    steps: &mut Steps<L>,
) -> Result<BooksOfClasses, NoMemory>
    requires told { (surely_kept keeper.old).rows ≡ rows_of desk.old.book.journal }
    ensures classes { IfOk result (λ classes. classes ≡ spec.classes_shown desk.old.book.journal) }
    ensures journal { desk.new.book.journal ≡ desk.old.book.journal }
    ensures keeper { keeper.new ≡ keeper.old }
{
    let reply = look(desk, keeper, &Request::Books, steps)?;
    Ok(classes_in(alloc, reply))
}

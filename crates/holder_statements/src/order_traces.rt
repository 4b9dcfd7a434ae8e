//! The reply to a look at an order: pending, struck, filled or unfilled, with its numbers.
ghost use Rattle.std.specs.Prelude.{◌≡◌, false, unwrap_or};
ghost use Rattle.std.specs.Option.{option_copied};
ghost use Rattle.agent_events.specs.declared.reply.Reply.{Reply as AnyReply};
ghost use Rattle.forward_price.specs.Turns.{due_of};
ghost use Rattle.register_machine.specs.pricing.CorrectedBook.{Book, due_at, due_moment};
ghost use Rattle.register_machine.specs.queries.Trace.{bare_trace, has_numbers, loose_by, state_by, trace_of_trade, with_numbers};
ghost use Rattle.register_machine.specs.replay.Replay.{priced_in};
ghost use Rattle.holder_statements.specs.OrderTraces.{IsFoundOn, NeverFall, book_over, state_among, state_by_outcome, trace_among, trade_among};

use crate::sheet_trades::trade_on;
use agent_events::{Body, OrderRow, OrderState, Outcome, Reply, TraceReply, Trade, Why};
use forward_price::PriceBook;
use money_units::{Cents, Mils, Moment};
use register_machine::{class_of, target_of};

/// What became of an order: struck or pending with its due moment, 0 where it has none, or filled or unfilled at the moment
/// of its sheet, with the price and the money in cents and the mils.
///
/// The trades are those of the order's household, or of all: they never fall by sheet, and an order that isn't struck has its
/// trade on the sheet of its next price. So it is looked for from that sheet's first trade on, which two looks find where the
/// household trades as often on each sheet, and else a search.
pub fn trace_reply(prices: &PriceBook, trades: &[Trade], row: &OrderRow) -> Reply
    requires fall { NeverFall trades.now }
    requires found { row.now.struck ≡ false
        → IsFoundOn prices.now.table.sheets trades.now row.now }
    ensures { (book : Book) → book.table ≡ prices.now.table
        → result ≡ AnyReply.Trace (trace_among book trades.now row.now) }
{
    Reply::Trace(trace_of(prices, trades, row))
}

/// The state of an order as `trace_reply` shows it, by the same trades at the same cost, without its numbers.
pub fn order_state(prices: &PriceBook, trades: &[Trade], row: &OrderRow) -> OrderState
    requires fall { NeverFall trades.now }
    requires found { row.now.struck ≡ false
        → IsFoundOn prices.now.table.sheets trades.now row.now }
    ensures { result ≡ state_among trades.now row.now }
{
    if row.struck {
        return OrderState::Struck;
    }
    match trade_of(prices, trades, row) {
        Some(trade) => state_by_outcome(&trade.outcome),
        None => OrderState::Pending,
    }
}

fn state_by_outcome(outcome: &Outcome) -> OrderState
    ensures { result ≡ state_by_outcome outcome.now }
{
    match outcome {
        Outcome::Filled => OrderState::Filled,
        Outcome::Unfilled(why) => state_by(why),
    }
}

fn trace_of(prices: &PriceBook, trades: &[Trade], row: &OrderRow) -> TraceReply
    requires fall { NeverFall trades.now }
    requires found { row.now.struck ≡ false
        → IsFoundOn prices.now.table.sheets trades.now row.now }
    ensures { result ≡ trace_among (book_over prices.now.table) trades.now row.now }
{
    if row.struck {
        return bare_trace(row, OrderState::Struck, due_moment(prices, row));
    }
    match trade_of(prices, trades, row) {
        Some(trade) => trace_of_trade(row, trade),
        None => bare_trace(row, OrderState::Pending, due_moment(prices, row)),
    }
}

// The trade of an order.
fn trade_of<'a>(prices: &PriceBook, trades: &'a [Trade], row: &OrderRow) -> Option<&'a Trade>
    requires fall { NeverFall trades.now }
    requires found { IsFoundOn prices.now.table.sheets trades.now row.now }
    ensures { option_copied result ≡ trade_among trades.now row.now }
{
    match sheet_of(prices, row) {
        Some(sheet) => trade_on(
            trades,
            sheet,
            row.order.account.number(),
            row.order.ref_no.number(),
        ),
        None => None,
    }
}

// The number of the sheet of its next price.
fn sheet_of(prices: &PriceBook, row: &OrderRow) -> Option<u32>
    ensures { result ≡ (priced_in prices.now.table.sheets row.now).sheet }
{
    let class = class_of(&row.order.body).number();
    match target_of(&row.order.body) {
        Some(to) => prices.first_after(row.receipt, &[class, to.number()]),
        None => prices.first_after(row.receipt, &[class]),
    }
}

// The moment at which an order is due, 0 where it is due at none.
fn due_moment(prices: &PriceBook, row: &OrderRow) -> Moment
    ensures { result ≡ unwrap_or (due_moment (book_over prices.now.table) row.now) 0 }
{
    match due_at(prices, &row.order.body, row.receipt) {
        Some(due) => due,
        None => Moment::start(),
    }
}

fn due_at(prices: &PriceBook, body: &Body, receipt: Moment) -> Option<Moment>
    ensures { result ≡ due_at (book_over prices.now.table) body.now receipt }
{
    let class = class_of(body).number();
    match target_of(body) {
        Some(to) => due_of(prices, &[class, to.number()], receipt),
        None => due_of(prices, &[class], receipt),
    }
}

fn due_of(prices: &PriceBook, classes: &[u32], receipt: Moment) -> Option<Moment>
    ensures { result ≡ due_of prices.now.table classes.now receipt }
{
    prices.due(classes, receipt)
}

// An order without numbers.
fn bare_trace(row: &OrderRow, state: OrderState, due: Moment) -> TraceReply
    ensures { result ≡ bare_trace row.now state due }
{
    TraceReply {
        account: row.order.account,
        ref_no: row.order.ref_no,
        state,
        receipt: row.receipt,
        due,
        price: Cents(0),
        mils: Mils(0),
        cash: Cents(0),
        charge: Cents(0),
        loose: Mils(0),
    }
}

// An order by its trade.
fn trace_of_trade(row: &OrderRow, trade: &Trade) -> TraceReply
    ensures { result ≡ trace_of_trade row.now trade.now trade.now.outcome }
{
    match trade.outcome {
        Outcome::Filled => {
            let bare = bare_trace(row, OrderState::Filled, trade.moment);
            with_numbers(row, &bare, trade)
        }
        Outcome::Unfilled(why) => {
            let bare = bare_trace(row, state_by(&why), trade.moment);
            with_loose(&bare, &why)
        }
    }
}

fn with_numbers(row: &OrderRow, trace: &TraceReply, trade: &Trade) -> TraceReply
    ensures { result ≡ with_numbers row.now trace.now trade.now }
{
    if !has_numbers(&row.order.body) {
        return *trace;
    }
    TraceReply {
        account: trace.account,
        ref_no: trace.ref_no,
        state: trace.state,
        receipt: trace.receipt,
        due: trace.due,
        price: trade.price,
        mils: trade.mils,
        cash: trade.cash,
        charge: trade.charge,
        loose: trace.loose,
    }
}

fn with_loose(trace: &TraceReply, why: &Why) -> TraceReply
    ensures { result ≡ record trace.now { loose = loose_by why.now } }
{
    TraceReply {
        account: trace.account,
        ref_no: trace.ref_no,
        state: trace.state,
        receipt: trace.receipt,
        due: trace.due,
        price: trace.price,
        mils: trace.mils,
        cash: trace.cash,
        charge: trace.charge,
        loose: loose_by(why),
    }
}

// A letter and an election have no numbers.
fn has_numbers(body: &Body) -> bool
    ensures { result ≡ has_numbers body.now }
{
    match body {
        Body::Letter {
            class: _,
            amount: _,
        } => false,
        Body::Elect {
            class: _,
            in_cash: _,
        } => false,
        _ => true,
    }
}

fn state_by(why: &Why) -> OrderState
    ensures { result ≡ state_by why.now }
{
    match why {
        Why::Short(_) => OrderState::Short,
        Why::TooSmall => OrderState::Small,
        Why::Ceiling => OrderState::Ceiling,
        Why::LetterOpen => OrderState::Letter,
    }
}

fn loose_by(why: &Why) -> Mils
    ensures { result ≡ loose_by why.now }
{
    match why {
        Why::Short(loose) => *loose,
        _ => Mils(0),
    }
}

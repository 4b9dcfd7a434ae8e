//! What the orders that earlier lines placed add to the rules on a line.
ghost use Rattle.std.specs.Prelude.{◌≡◌, ◌≤◌, ◌+◌, count_by, length};
ghost use Rattle.std.specs.Option.{option_or};
ghost use Rattle.std.specs.List.{list_any};
ghost use Rattle.dealer_lines.specs.RulesBehind.{are_orders_full, below_minimum_of, buys_for, has_bought, has_name, is_for, is_journal_full, row_behind, rules_of_earlier};
ghost use Rattle.register_machine.specs.journal.Choices.{first_some};

use agent_events::{Body, LineForm, Order, OrderRow, Placed, Refusal};
use order_book::{OrderBook, buys_class};
use request_rules::{below_least, refused_when};

/// The most orders and cancels of an account.
const MAX_ORDERS: usize = 4_096;

/// The most events of a journal.
const MAX_EVENTS: u64 = 100_000_000;

fn has_name(order: &Order, placed: &Placed) -> bool
    ensures { result ≡ has_name order.now placed.now }
{
    placed.order.account.number() == order.account.number()
        && placed.order.ref_no.number() == order.ref_no.number()
}

/// Whether an earlier line has this account and reference.
fn is_named(earlier: &[Placed], order: &Order) -> bool
    ensures { result ≡ list_any (has_name order.now) earlier.now }
{
    earlier.iter().any(|placed| has_name(order, placed))
}

fn buys_for(account: u32, class: u32, placed: &Placed) -> bool
    ensures { result ≡ buys_for account class placed.now }
{
    placed.order.account.number() == account && buys_class(class, &placed.order.body)
}

/// Whether an earlier line buys the class for the account.
fn is_bought(earlier: &[Placed], account: u32, class: u32) -> bool
    ensures { result ≡ list_any (buys_for account class) earlier.now }
{
    earlier
        .iter()
        .any(|placed| buys_for(account, class, placed))
}

/// The line as a row behind all events.
fn row_behind(book: &OrderBook, earlier: &[Placed], line: &LineForm) -> OrderRow
    requires few { length book.now.journal + length earlier.now ≤ 100000000 }
    ensures { result ≡ row_behind book.now.journal earlier.now line.now }
{
    OrderRow {
        place: book.len() + earlier.len() as u64,
        receipt: line.receipt,
        struck: false,
        order: line.order,
    }
}

/// Whether the account has bought the class before, in the journal or by an earlier line.
fn has_bought(book: &OrderBook, earlier: &[Placed], line: &LineForm, class: u32) -> bool
    requires few { length book.now.journal + length earlier.now ≤ 100000000 }
    ensures { result ≡ has_bought book.now.journal earlier.now line.now class }
{
    let row = row_behind(book, earlier, line);
    book.has_bought(&row, class) || is_bought(earlier, line.order.account.number(), class)
}

/// Refusal 6, behind the earlier lines. The gross of a purchase is below its minimum.
fn below_minimum(book: &OrderBook, earlier: &[Placed], line: &LineForm) -> Option<Refusal>
    requires few { length book.now.journal + length earlier.now ≤ 100000000 }
    ensures { result ≡ below_minimum_of book.now.journal earlier.now line.now line.now.order.body }
{
    match line.order.body {
        Body::Buy { class, gross } => match book.class(class.number()) {
            Some(terms) => {
                let is_bought = has_bought(book, earlier, line, class.number());
                below_least(terms, is_bought, gross)
            }
            None => None,
        },
        _ => None,
    }
}

fn is_for(account: u32, placed: &Placed) -> bool
    ensures { result ≡ is_for account placed.now }
{
    placed.order.account.number() == account
}

/// How many orders of the account the earlier lines placed.
fn orders_in(earlier: &[Placed], account: u32) -> usize
    ensures { result ≡ count_by (is_for account) earlier.now }
{
    earlier
        .iter()
        .filter(|placed| is_for(account, placed))
        .count()
}

/// Whether the account has as many orders and cancels as it may have.
fn are_orders_full(book: &OrderBook, earlier: &[Placed], account: u32) -> bool
    ensures { result ≡ are_orders_full book.now.journal earlier.now account }
{
    MAX_ORDERS.saturating_sub(book.orders_in(account)) <= orders_in(earlier, account)
}

/// Whether the journal is full.
fn is_journal_full(book: &OrderBook, earlier: &[Placed]) -> bool
    ensures { result ≡ is_journal_full book.now.journal earlier.now }
{
    MAX_EVENTS.saturating_sub(book.len()) <= earlier.len() as u64
}

/// The first refusal among two.
fn either(first: Option<Refusal>, second: Option<Refusal>) -> Option<Refusal>
    ensures { result ≡ option_or first second }
{
    match first {
        Some(refusal) => Some(refusal),
        None => second,
    }
}

/// The first of the rules that the earlier lines' orders change, which the line breaks behind them.
pub(crate) fn broken_by_earlier(
    book: &OrderBook,
    earlier: &[Placed],
    line: &LineForm,
) -> Option<Refusal>
    requires few { length book.now.journal + length earlier.now ≤ 100000000 }
    ensures { result ≡ first_some (rules_of_earlier book.now.journal earlier.now line.now) }
{
    let used = refused_when(is_named(earlier, &line.order), Refusal::RefUsed);
    let below = below_minimum(book, earlier, line);
    let full = refused_when(
        are_orders_full(book, earlier, line.order.account.number()),
        Refusal::OrdersFull(MAX_ORDERS as u32),
    );
    let ended = refused_when(is_journal_full(book, earlier), Refusal::JournalFull);
    either(used, either(below, either(full, either(ended, None))))
}

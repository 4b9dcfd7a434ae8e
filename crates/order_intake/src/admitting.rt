//! The book with its verdicts.
ghost use Rattle.std.specs.Prelude.{◌≡◌, IfOk};
ghost use Rattle.register_laws.specs.OneEventMore.{corrected_table};
ghost use Rattle.register_machine.specs.journal.Lawful.{IsLawful};
ghost use Rattle.register_machine.specs.rules.Callers.{caller_of};
ghost use Rattle.register_machine.specs.rules.Situations.{situation_at};
ghost use Rattle.register_machine.specs.run.Verdicts.{verdict};

use crate::verdicts::verdict_of;
use agent_events::{Caller, Request, Verdict};
use forward_price::PriceBook;
use money_units::{Moment, NoMemory};
use order_book::OrderBook;
use request_rules::Inquiry;
use std::alloc::Global;

/// Who calls, as the key tells.
pub fn caller_of(book: &OrderBook, key: &[u8], operator: &[u8]) -> Caller
    ensures { result ≡ caller_of book.now.journal operator.now key.now }
{
    if key == operator {
        return Caller::Operator;
    }
    if let Some(household) = book.household_with_key(key) {
        return Caller::Household(household);
    }
    match book.dealer_with_key(key) {
        Some(dealer) => Caller::Dealer(dealer),
        None => Caller::Stranger,
    }
}

/// The verdict on a request by itself, behind all events of the book: the rules before the repeat, the repeat, and the other
/// rules but for the last one, on what a correction breaks. `prices` has the calendars, closures, classes, sheets and corrected
/// net asset values of the book's events, which the machine made.
pub fn admit(
    book: &OrderBook,
    alloc: Global,
    prices: &PriceBook,
    caller: Caller,
    request: &Request,
    moment: Moment,
) -> Result<Verdict, NoMemory>
    requires lawful { IsLawful book.now.journal }
    requires prices { prices.now.table ≡ corrected_table book.now.journal }
    ensures { IfOk result (λ said. said
        ≡ verdict (situation_at prices.now.table book.now.journal moment caller) request.now) }
{
    let inquiry = Inquiry::new(book, prices, moment, caller);
    verdict_of(alloc, book, &inquiry, request)
}

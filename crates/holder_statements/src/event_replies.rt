//! The reply to what an event says, behind the journal before it.
ghost use Rattle.std.specs.Prelude.{◌≡◌, ℕ, [], unwrap_or, IfOk};
ghost use Rattle.std.specs.Option.{option_copied};
ghost use Rattle.agent_events.specs.declared.reply.Reply.{Reply as AnyReply};
ghost use Rattle.forward_price.specs.PriceTables.{Table};
ghost use Rattle.register_machine.specs.journal.Journals.{Journal};
ghost use Rattle.register_machine.specs.run.Replies.{first_reply, order_reply, reply_of};
ghost use Rattle.holder_statements.specs.EventReplies.{AreGainsOf, AreKeptFor, NumbersSheet, StandsAsNumbered, number_among};

use agent_events::{ClassGains, EventKind, OrderReply, Placed, Reference, Reply};
use forward_price::PriceBook;
use money_units::NoMemory;
use std::alloc::Global;

/// The reply to an event of this kind. A sheet is answered with its number, one more than the sheets before it, and a
/// correction with its gains; no other kind reads either.
pub fn event_reply(kind: &EventKind, number: u32, gains: ClassGains) -> Reply
    ensures { (table : Table) (before : Journal) (moment : ℕ)
        → NumbersSheet before kind.now number
        → AreGainsOf table before (record { moment = moment; kind = kind.now }) gains
        → result ≡ reply_of table before (record { moment = moment; kind = kind.now }) }
{
    match kind {
        EventKind::Calendar(form) => Reply::Calendar(form.calendar),
        EventKind::Close(form) => Reply::Close(*form),
        EventKind::Class(form) => Reply::Class(form.class),
        EventKind::Dealer(form) => Reply::Dealer(form.dealer),
        EventKind::Household(form) => Reply::Household(form.household),
        EventKind::Account(form) => Reply::Account(form.account),
        EventKind::Order(placed) => Reply::Order(order_reply(placed)),
        EventKind::Cancel(form) => Reply::Cancel(*form),
        EventKind::Sheet(_) => Reply::Sheet(number),
        EventKind::Dividend(form) => Reply::Dividend {
            class: form.class,
            moment: form.moment,
        },
        EventKind::FixPrice(form) => fix_reply(form.fix, gains),
        EventKind::FixRate(form) => fix_reply(form.fix, gains),
        EventKind::Enter(form) => fix_reply(form.fix, gains),
        EventKind::Replace(form) => fix_reply(form.fix, gains),
        EventKind::Void(form) => fix_reply(form.fix, gains),
    }
}

/// The first reply again, to the event of this kind behind the journal before it, from the sheets that are published and the
/// gains that are kept since. After `NoMemory` nothing is answered.
pub fn repeat_reply(
    alloc: Global,
    kind: &EventKind,
    prices: &PriceBook,
    gains: Option<&ClassGains>,
) -> Result<Reply, NoMemory>
    ensures { IfOk result (λ reply. (before : Journal) (moment : ℕ)
        → StandsAsNumbered prices.now.table.sheets before kind.now
        → AreKeptFor before (record { moment = moment; kind = kind.now })
        (option_copied gains.entry)
        → reply ≡ first_reply before (record { moment = moment; kind = kind.now })) }
{
    let number = number_of(kind, prices);
    let gains = copy_of(alloc, gains)?;
    Ok(event_reply(kind, number, gains))
}

// The number of the sheet that an event published, 0 for any other.
fn number_of(kind: &EventKind, prices: &PriceBook) -> u32
    ensures { result ≡ unwrap_or (number_among prices.now.table.sheets kind.now) 0 }
{
    match kind {
        EventKind::Sheet(form) => prices
            .sheet_at(form.calendar.number(), form.moment)
            .unwrap_or(0),
        _ => 0,
    }
}

// Gains equal to these, and none where there are none.
fn copy_of(alloc: Global, gains: Option<&ClassGains>) -> Result<ClassGains, NoMemory>
    ensures { IfOk result (λ copy. copy ≡ unwrap_or (option_copied gains.entry) []) }
{
    match gains {
        Some(gains) => ClassGains::from_slice(alloc, gains.as_slice()),
        None => Ok(ClassGains::new(alloc)),
    }
}

// The reply to an order, with its receipt and the moment at which it was then due.
fn order_reply(placed: &Placed) -> OrderReply
    ensures { AnyReply.Order result ≡ order_reply placed.now }
{
    OrderReply {
        account: placed.order.account,
        ref_no: placed.order.ref_no,
        receipt: placed.receipt,
        due: placed.due,
    }
}

// A correction is answered with its gains.
fn fix_reply(fix: Reference, gains: ClassGains) -> Reply
    ensures { result ≡ AnyReply.Fix fix gains }
{
    Reply::Fix { fix, gains }
}

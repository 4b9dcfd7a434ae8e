//! Makes what an event changes in the books, and room for it.
ghost use Rattle.std.specs.Prelude.{◌≡◌, ◌≤◌, IfOk, OnOk, true};
ghost use Rattle.desk_books.specs.BooksOfJournals.{AreBooksOf, ShowTheSame};
ghost use Rattle.desk_books.specs.LedgerChanges.{IsLedgerChange};
ghost use Rattle.desk_books.specs.ReadyChanges.{HasItsMinute, IsReady};
ghost use Rattle.register_laws.specs.EventReplays.{is_correction};
ghost use Rattle.ledger_laws.specs.KeptOfBooks.{AreKeptOf};
ghost use Rattle.register_laws.specs.Lawful.{book_behind};
ghost use Rattle.register_machine.specs.journal.Journals.{with_event};
ghost use Rattle.register_machine.specs.journal.Lawful.{IsLawful};

use crate::books::DeskBooks;
use crate::change::{EventChange, LedgerChange};
use crate::index::order_change;
use crate::noting::note_classes;
use crate::posting::reserve_ledger;
use agent_events::{Event, EventKind};
use money_units::NoMemory;
use order_intake::Book;
use standing_orders::HouseholdOrders;
use std::alloc::Global;

impl DeskBooks {
    /// Makes what an event changes, which follows the journal, with room for it. `ledger` is what a sheet or a correction makes of
    /// the ledger as it stands, and behind a correction the kept states that remain are still what their households came to. The
    /// books show what they showed before, after `NoMemory` too.
    pub fn prepare(
        &mut self,
        alloc: Global,
        event: Event,
        ledger: Option<LedgerChange>,
    ) -> Result<EventChange, NoMemory>
        requires books { AreBooksOf self.old.book.journal self.old }
        requires follows { IsLawful (with_event self.old.book.journal event) }
        requires ledger { IsLedgerChange self.old.book.journal event self.old.ledger.parts ledger }
        requires kept { is_correction event.kind ≡ true
            → AreKeptOf (book_behind (with_event self.old.book.journal event)) self.old.kept }
        ensures same { ShowTheSame self.old self.new }
        ensures journal { self.new.book.journal ≡ self.old.book.journal }
        ensures event { IfOk result (λ change. change.event ≡ event) }
        ensures ledger { IfOk result (λ change. change.ledger ≡ ledger) }
        ensures ready { IfOk result (IsReady self.new) }
    {
        read_minute(event.kind());
        let prices = reference_tables::prepare(alloc, &mut self.prices, event.kind())?;
        let tables = self.tables.prepare(alloc, event.kind())?;
        let orders = order_change(self.book.orders(), event.kind());
        reserve_orders(&mut self.book, &mut self.orders)?;
        reserve_ledger(&mut self.ledger, &mut self.cash, &ledger)?;
        note_classes(alloc, &mut self.classes, self.book.orders(), event.kind())?;
        Ok(EventChange {
            event,
            prices,
            tables,
            orders,
            ledger,
        })
    }
}

// The time of day of a calendar that an event brings, which is in range.
fn read_minute(kind: &EventKind)
    ensures { HasItsMinute kind.now }
{
    match kind {
        EventKind::Calendar(form) => {
            let _minute = form.minute.minutes();
        }
        _ => {}
    }
}

// Makes room for an event in the book, and for an order in the index.
fn reserve_orders(book: &mut Book, orders: &mut HouseholdOrders) -> Result<(), NoMemory>
    ensures noted { OnOk result (1 ≤ book.new.spare) }
    ensures room { OnOk result (1 ≤ orders.new.spare) }
    ensures journal { book.new.journal ≡ book.old.journal }
    ensures owners { orders.new.owners ≡ orders.old.owners }
    ensures waiting { orders.new.waiting ≡ orders.old.waiting }
{
    book.reserve(1)?;
    orders.reserve(1)?;
    Ok(())
}

//! Notes an event in the books, without memory.
ghost use Rattle.desk_books.specs.BooksOfJournals.{AreBooksOf};
ghost use Rattle.desk_books.specs.ReadyChanges.{IsReady};
ghost use Rattle.register_machine.specs.journal.Journals.{with_event};

use crate::books::DeskBooks;
use crate::change::EventChange;
use crate::index::apply_orders;
use crate::posting::post_ledger;

impl DeskBooks {
    /// Notes an event: the books are then those of the journal with the event. It takes no memory: everything that the event
    /// changes was made for these books, and the room that was made is there.
    pub fn apply(&mut self, change: EventChange)
        requires books { AreBooksOf self.old.book.journal self.old }
        requires ready { IsReady self.old change }
        ensures { AreBooksOf (with_event self.old.book.journal change.event) self.new }
    {
        let EventChange {
            event,
            prices,
            tables,
            orders,
            ledger,
        } = change;
        let place = self.book.len();
        reference_tables::apply(&mut self.prices, event.moment(), event.kind(), prices);
        self.tables.note(tables);
        post_ledger(&mut self.ledger, &mut self.cash, place, ledger);
        self.book.note(place, event);
        apply_orders(&mut self.orders, self.book.orders(), &self.prices, orders);
    }
}

//! What the book of orders says of its references.
ghost use Rattle.std.specs.Prelude.{All, ◌<◌};
ghost use Rattle.register_machine.specs.pricing.CorrectedOrders.{orders_of};

use crate::books::DeskBooks;

/// The reference of each order of the books is above 0, as the book of orders has it. It takes no time.
pub(crate) fn references_in(books: &DeskBooks)
    ensures { All (λ row. 0 < row.order.ref_no) (orders_of books.now.book.journal) }
{
    books.book.orders().references_are_above_zero();
}

//! Replies to events, the first time and again.
ghost use Rattle.std.specs.Prelude.{◌≡◌, [], IfOk, Some, is_some, slice_get, take, true};
ghost use Rattle.std.specs.Option.{option_copied, option_map_or};
ghost use Rattle.desk_books.specs.BooksOfJournals.{AreBooksOf};
ghost use Rattle.holder_statements.specs.EventReplies.{next_number};
ghost use Rattle.gain_loss_book.specs.Booked.{correction_at};
ghost use Rattle.register_machine.specs.run.Answers.{repeat_answer, says};
ghost use Rattle.register_machine.specs.run.Replies.{first_reply};

use agent_events::{ClassGains, Event, Reply};
use desk_books::DeskBooks;
use gain_loss_book::Correction;
use money_units::NoMemory;
use std::alloc::Global;

/// The reply to an event behind the books' journal, with the gains of a correction.
pub fn event_reply(
    alloc: Global,
    books: &DeskBooks,
    event: &Event,
    correction: Option<&Correction>,
) -> Result<Reply, NoMemory>
    requires books { AreBooksOf books.now.book.journal books.now }
    requires gains { option_copied correction ≡ correction_at books.now.book.journal event.now }
    ensures { IfOk result (λ reply. reply ≡ first_reply books.now.book.journal event.now) }
{
    let gains = gains_of(alloc, correction)?;
    let number = next_number(books);
    Ok(holder_statements::event_reply(event.kind(), number, gains))
}

// The gains of a correction, and none where there is none.
fn gains_of(alloc: Global, correction: Option<&Correction>) -> Result<ClassGains, NoMemory>
    ensures { IfOk result (λ gains. gains
        ≡ option_map_or (λ correction. correction.gains) (option_copied correction.entry) []) }
{
    match correction {
        Some(correction) => ClassGains::from_slice(alloc, correction.gains.as_slice()),
        None => Ok(ClassGains::new(alloc)),
    }
}

// The number of the sheet that comes next.
fn next_number(books: &DeskBooks) -> u32
    requires books { AreBooksOf books.now.book.journal books.now }
    ensures { result ≡ next_number books.now.book.journal }
{
    books.prices.sheets().len() as u32 + 1
}

/// The first reply again, to the event at this place of the journal.
pub fn repeat_reply(alloc: Global, books: &DeskBooks, place: u64) -> Result<Reply, NoMemory>
    requires books { AreBooksOf books.now.book.journal books.now }
    requires there { is_some (slice_get books.now.book.journal place) ≡ true }
    ensures { IfOk result (λ reply. says reply ≡ repeat_answer books.now.book.journal place) }
{
    match books.book.event(place) {
        Some(event) => reply_again(alloc, books, place, event),
        None => unreachable!(),
    }
}

// The first reply again, with the gains that are kept of a correction.
fn reply_again(
    alloc: Global,
    books: &DeskBooks,
    place: u64,
    event: &Event,
) -> Result<Reply, NoMemory>
    requires books { AreBooksOf books.now.book.journal books.now }
    requires there { slice_get books.now.book.journal place ≡ Some event.now }
    ensures { IfOk result (λ reply. reply
        ≡ first_reply (take place books.now.book.journal) event.now) }
{
    let gains = books.cash.gains_of(place);
    let reply = holder_statements::repeat_reply(alloc, event.kind(), &books.prices, gains)?;
    Ok(reply)
}

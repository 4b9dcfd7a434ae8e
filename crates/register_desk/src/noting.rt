//! An event that follows the journal: its reply, and all that it changes.
ghost use Rattle.std.specs.Prelude.{◌≡◌, IfOk, None, true};
ghost use Rattle.std.specs.Option.{option_copied};
ghost use Rattle.register_desk.specs.Answered.{IsReadyToNote, answer_given};
ghost use Rattle.register_desk.specs.Fresh.{first_answer, ledger_of};
ghost use Rattle.desk_books.specs.BooksOfJournals.{AreBooksOf, ShowTheSame};
ghost use Rattle.desk_books.specs.LedgerChanges.{IsLedgerChange};
ghost use Rattle.register_desk.specs.Replies.{correction_in};
ghost use Rattle.register_laws.specs.EventReplays.{is_correction};
ghost use Rattle.ledger_laws.specs.KeptOfBooks.{AreKeptOf};
ghost use Rattle.register_laws.specs.Lawful.{book_behind};
ghost use Rattle.register_machine.specs.journal.Journals.{with_event};
ghost use Rattle.register_machine.specs.journal.Lawful.{IsLawful};

use crate::answering::Answered;
use crate::events::event_reply;
use crate::ready_change::ReadyChange;
use agent_events::Event;
use desk_books::{DeskBooks, LedgerChange};
use gain_loss_book::Correction;
use money_units::NoMemory;
use std::alloc::Global;

/// Who bears a correction, with its gains, where the ledger's change is of one.
fn correction_in(ledger: &Option<LedgerChange>) -> Option<&Correction>
    ensures { option_copied result ≡ correction_in ledger.now }
{
    match ledger {
        Some(ledger) => ledger.correction.as_ref(),
        None => None,
    }
}

/// The first reply to an event that follows the journal, and all that it changes, ready to be noted.
pub(crate) fn answer_event(
    alloc: Global,
    books: &mut DeskBooks,
    event: Event,
    ledger: Option<LedgerChange>,
) -> Result<Answered, NoMemory>
    requires books { AreBooksOf books.old.book.journal books.old }
    requires follows { IsLawful (with_event books.old.book.journal event) }
    requires ledger { IsLedgerChange books.old.book.journal event books.old.ledger.parts ledger }
    requires kept { is_correction event.kind ≡ true
        → AreKeptOf (book_behind (with_event books.old.book.journal event)) books.old.kept }
    ensures same { ShowTheSame books.old books.new }
    ensures journal { books.new.book.journal ≡ books.old.book.journal }
    ensures answer { IfOk result (λ answered. answer_given answered
        ≡ first_answer books.old.book.journal event None) }
    ensures ready { IfOk result (λ answered. IsReadyToNote books.new answered.change) }
    ensures ledger { IfOk result (λ answered. ledger_of answered.change ≡ ledger) }
{
    let reply = event_reply(alloc, books, &event, correction_in(&ledger))?;
    let change = books.prepare(alloc, event, ledger)?;
    let change = ReadyChange::of(alloc, change)?;
    Ok(Answered {
        reply,
        change: Some(change),
    })
}

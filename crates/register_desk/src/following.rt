//! Whether a stored event follows the books' journal: its request, asked again by its asker at its moment, brings this very event.
ghost use Rattle.std.specs.Prelude.{◌≡◌, ◌≤◌, IfOk, IfSome, None, nat_lt};
ghost use Rattle.register_desk.specs.Answered.{IsReadyToNote};
ghost use Rattle.register_desk.specs.Asked.{IsAskedAgain, change_to, keeps_moments, moments_kept};
ghost use Rattle.register_desk.specs.StepBounds.{AreFewSteps};
ghost use Rattle.register_desk.specs.Steps.{AreStepsAsked, AreStepsFound};
ghost use Rattle.desk_books.specs.BooksOfJournals.{AreBooksOf, ShowTheSame};
ghost use Rattle.desk_books.specs.ReadyChanges.{IsReady};
ghost use Rattle.register_machine.specs.journal.Choices.{when};
ghost use Rattle.register_machine.specs.journal.Journals.{last_moment, with_event};
ghost use Rattle.register_machine.specs.journal.Lawful.{IsLawful};

use crate::answering::{Answered, answer_request};
use crate::asking::{asker_of, request_of};
use crate::ready_change::ReadyChange;
use agent_events::{Event, EventKind};
use desk_books::DeskBooks;
use household_fold::Steps;
use money_units::NoMemory;
use order_intake::Book;
use std::alloc::Global;
use std::sync::ledger::Ledger as StepLedger;

/// The receipt and the due moment that an order keeps, in seconds; zeros for anything else.
fn moments_kept(kind: &EventKind) -> (u64, u64)
    ensures { result ≡ moments_kept kind.now }
{
    match kind {
        EventKind::Order(placed) => (placed.receipt.seconds(), placed.due.seconds()),
        _ => (0, 0),
    }
}

/// Whether two events keep the same moments.
fn keeps_moments(kind: &EventKind, other: &EventKind) -> bool
    ensures { result ≡ keeps_moments kind.now other.now }
{
    let (receipt, due) = moments_kept(kind);
    let (other_receipt, other_due) = moments_kept(other);
    receipt == other_receipt && due == other_due
}

/// The change, where it is of this event.
fn change_if_same(change: ReadyChange, event: &Event) -> Option<ReadyChange>
    ensures { result ≡ when (keeps_moments change.event.kind event.now.kind) change }
{
    if keeps_moments(change.event().kind(), event.kind()) {
        Some(change)
    } else {
        None
    }
}

/// The change of an answer, where it is of this event.
fn change_to(change: Option<ReadyChange>, event: &Event) -> Option<ReadyChange>
    ensures { result ≡ change_to change event.now }
{
    match change {
        Some(change) => change_if_same(change, event),
        None => None,
    }
}

/// Whether an event is before the last one of the book.
fn is_before(book: &Book, event: &Event) -> bool
    ensures { result ≡ nat_lt event.now.moment (last_moment book.now.journal) }
{
    event.moment().seconds() < book.last_moment().seconds()
}

/// The answer to an event's own request, asked again by its asker at its moment.
fn asked_again<L: StepLedger>(
    alloc: Global,
    books: &mut DeskBooks,
    event: &Event,
    steps: &mut Steps<L>,
) -> Result<Answered, NoMemory>
    requires books { AreBooksOf books.old.book.journal books.old }
    requires moment { last_moment books.old.book.journal ≤ event.now.moment }
    ensures same { ShowTheSame books.old books.new }
    ensures journal { books.new.book.journal ≡ books.old.book.journal }
    ensures answer { IfOk result (IsAskedAgain books.old.book.journal event.now) }
    ensures ready { IfOk result (λ answered. IsReadyToNote books.new answered.change) }
    ensures steps { IfOk result (λ answered. AreStepsAsked books.old.book.journal
        event.now answered.change steps.old steps.new) }
{
    let moment = event.moment();
    let kind = event.kind();
    let caller = asker_of(&books.book, kind);
    let request = request_of(alloc, kind)?;
    answer_request(alloc, books, moment, caller, &request, steps)
}

/// All that a stored event changes, exactly where it follows the books' journal; `None` exactly where it doesn't. The books show
/// what they showed before, after `NoMemory` too; the event that is found is ready to be noted in them.
///
/// A sheet that follows takes one step for each household that it moves, a correction at most those of the households that it can
/// reach, whether it follows or breaks an order, and any other event none.
pub fn follows<L: StepLedger>(
    alloc: Global,
    books: &mut DeskBooks,
    event: &Event,
    steps: &mut Steps<L>,
) -> Result<Option<ReadyChange>, NoMemory>
    requires books { AreBooksOf books.old.book.journal books.old }
    ensures same { ShowTheSame books.old books.new }
    ensures journal { books.new.book.journal ≡ books.old.book.journal }
    ensures some { IfOk result (λ found. IfSome found (λ change.
        (change.event ≡ event.now) × IsReady books.new change)) }
    ensures none { IfOk result (λ found. found ≡ None
        → IsLawful (with_event books.old.book.journal event.now) → ⊥) }
    ensures steps { IfOk result (λ found. AreStepsFound books.old.book.journal
        event.now found steps.old steps.new) }
    ensures few { IfOk result (λ found. AreFewSteps books.old.book.journal
        event.now found steps.old steps.new) }
{
    if is_before(&books.book, event) {
        return Ok(None);
    }
    let answered = asked_again(alloc, books, event, steps)?;
    Ok(change_to(answered.change, event))
}

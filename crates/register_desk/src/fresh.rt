//! The answer to a request that brings an event: a sheet and a correction are tried first.
ghost use Rattle.std.specs.Prelude.{◌≡◌, IfOk, None, false, true, ◌||◌};
ghost use Rattle.checkpoint_replay.specs.Moves.{households_of};
ghost use Rattle.desk_books.specs.CorrectionTrials.{IsFresh, last_says};
ghost use Rattle.register_desk.specs.Answered.{IsReadyToNote, answer_given};
ghost use Rattle.register_desk.specs.Fresh.{FollowsUnlessBroken, first_answer, ledger_of, moves_in};
ghost use Rattle.register_desk.specs.Steps.{TakesSteps};
ghost use Rattle.desk_books.specs.BooksOfJournals.{AreBooksOf, ShowTheSame};
ghost use Rattle.register_laws.specs.EventReplays.{is_correction, is_sheet};
ghost use Rattle.register_machine.specs.journal.Journals.{with_event};
ghost use Rattle.register_machine.specs.journal.Lawful.{IsLawful};
ghost use Rattle.desk_books.specs.SheetReach.{TakeOneStepEach};

use crate::answering::{Answered, reply_alone};
use crate::noting::answer_event;
use agent_events::{Event, EventKind, Reply};
use desk_books::{DeskBooks, Tried, try_correction, try_sheet};
use household_fold::Steps;
use money_units::NoMemory;
use std::alloc::Global;
use std::sync::ledger::Ledger as StepLedger;

/// Whether an event is a sheet.
fn is_sheet(kind: &EventKind) -> bool
    ensures { result ≡ is_sheet kind.now }
{
    match kind {
        EventKind::Sheet(_) => true,
        _ => false,
    }
}

/// Whether an event is a correction.
fn is_correction(kind: &EventKind) -> bool
    ensures { result ≡ is_correction kind.now }
{
    match kind {
        EventKind::FixPrice(_) => true,
        EventKind::FixRate(_) => true,
        EventKind::Enter(_) => true,
        EventKind::Replace(_) => true,
        EventKind::Void(_) => true,
        _ => false,
    }
}

/// The answer to a sheet: one step for each household that it moves.
fn answer_sheet<L: StepLedger>(
    alloc: Global,
    books: &mut DeskBooks,
    event: Event,
    steps: &mut Steps<L>,
) -> Result<Answered, NoMemory>
    requires books { AreBooksOf books.old.book.journal books.old }
    requires sheet { is_sheet event.kind ≡ true }
    requires follows { IsLawful (with_event books.old.book.journal event) }
    ensures same { ShowTheSame books.old books.new }
    ensures journal { books.new.book.journal ≡ books.old.book.journal }
    ensures answer { IfOk result (λ answered. answer_given answered
        ≡ first_answer books.old.book.journal event None) }
    ensures ready { IfOk result (λ answered. IsReadyToNote books.new answered.change) }
    ensures steps { IfOk result (λ answered. TakeOneStepEach books.old.book.journal event
        (households_of (moves_in (ledger_of answered.change))) steps.old steps.new) }
{
    let ledger = try_sheet(alloc, books, &event, steps)?;
    answer_event(alloc, books, event, Some(ledger))
}

/// The answer to a correction: it is refused by the last rule, or noted.
fn answer_correction<L: StepLedger>(
    alloc: Global,
    books: &mut DeskBooks,
    event: Event,
    steps: &mut Steps<L>,
) -> Result<Answered, NoMemory>
    requires books { AreBooksOf books.old.book.journal books.old }
    requires correction { is_correction event.kind ≡ true }
    requires fresh { IsFresh books.old.book.journal event }
    requires follows { FollowsUnlessBroken books.old.book.journal event }
    ensures same { ShowTheSame books.old books.new }
    ensures journal { books.new.book.journal ≡ books.old.book.journal }
    ensures answer { IfOk result (λ answered. answer_given answered
        ≡ first_answer books.old.book.journal event (last_says books.old.book.journal event)) }
    ensures ready { IfOk result (λ answered. IsReadyToNote books.new answered.change) }
    ensures steps { IfOk result (λ answered. TakesSteps books.old.book.journal
        event answered.change steps.old steps.new) }
{
    match try_correction(alloc, books, &event, steps)? {
        Tried::Breaks(refusal) => Ok(reply_alone(Reply::Refused(refusal))),
        Tried::Moves(ledger) => answer_event(alloc, books, event, Some(ledger)),
    }
}

/// The answer to an event that a request brings behind the journal.
pub(crate) fn answer_fresh<L: StepLedger>(
    alloc: Global,
    books: &mut DeskBooks,
    event: Event,
    steps: &mut Steps<L>,
) -> Result<Answered, NoMemory>
    requires books { AreBooksOf books.old.book.journal books.old }
    requires fresh { IsFresh books.old.book.journal event }
    requires follows { FollowsUnlessBroken books.old.book.journal event }
    ensures same { ShowTheSame books.old books.new }
    ensures journal { books.new.book.journal ≡ books.old.book.journal }
    ensures answer { IfOk result (λ answered. answer_given answered
        ≡ first_answer books.old.book.journal event (last_says books.old.book.journal event)) }
    ensures ready { IfOk result (λ answered. IsReadyToNote books.new answered.change) }
    ensures steps { IfOk result (λ answered. TakesSteps books.old.book.journal
        event answered.change steps.old steps.new) }
{
    if is_sheet(event.kind()) {
        answer_sheet(alloc, books, event, steps)
    } else if is_correction(event.kind()) {
        answer_correction(alloc, books, event, steps)
    } else {
        answer_event(alloc, books, event, None)
    }
}

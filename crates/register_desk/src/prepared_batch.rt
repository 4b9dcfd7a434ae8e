//! A prepared batch of a dealer's lines.
ghost use Rattle.std.specs.Prelude.{◌≡◌, ◌≤◌, ◌++◌, ◌∷◌, [], All, IfOk, Ok, true};
ghost use Rattle.agent_events.specs.declared.reply.Refusal.{Refusal as Why};
ghost use Rattle.agent_events.specs.declared.reply.Reply.{Reply as Said};
ghost use Rattle.dealer_lines.specs.Answers.{lines_given};
ghost use Rattle.dealer_lines.specs.Lines.{all_lines, line_event, line_events};
ghost use Rattle.register_desk.specs.Answered.{IsCaller};
ghost use Rattle.desk_books.specs.BooksOfJournals.{AreBooksOf};
ghost use Rattle.event_rows.specs.InForm.{InForm};
ghost use Rattle.event_rows.specs.Rows.{event_row};
ghost use Rattle.register_desk.specs.PreparedBatches.{batch_given};
ghost use Rattle.register_desk.specs.Rows.{rows_of};
ghost use Rattle.register_laws.specs.Lawful.{own_at};
ghost use Rattle.register_machine.specs.journal.Journals.{Journal, last_moment};
ghost use Rattle.register_machine.specs.journal.Lawful.{IsLawful};
ghost use Rattle.register_machine.specs.run.Batches.{batch_answer};

use agent_events::{Asked, Caller, Event, EventKind, Placed, Refusal, Reply};
use agent_keeper::Batch;
use dealer_lines::{LinesAnswered, answer_lines};
use desk_books::DeskBooks;
use event_rows::encode;
use money_units::{Bytes, List, Moment, NoMemory};
use std::alloc::Global;

/// The replies to the lines of a batch, and the orders that they place with their rows: everything that `commit_batch` needs.
#[derive(Drop)]
pub struct PreparedBatch {
    pub answered: LinesAnswered,
    pub base: u64,
    pub batch: Batch,
}

impl PreparedBatch {
    /// The replies to the lines, in order.
    pub fn replies(&self) -> &[Reply]
        ensures { result.now ≡ self.now.answered.replies }
    {
        self.answered.replies.as_slice()
    }

    /// The number of events before it.
    pub fn base(&self) -> u64
        ensures { result ≡ self.now.base }
    {
        self.base
    }

    /// Gives it up.
    pub fn discard(self) {}
}

// The one reply to a batch of somebody who is no dealer.
fn refused_whole(alloc: Global, moment: Moment) -> Result<LinesAnswered, NoMemory>
    ensures reply { IfOk result (λ answered. lines_given answered
        ≡ record { replies = Said.Refused Why.NoRight ∷ []; events = [] }) }
    ensures nothing { IfOk result (λ answered. (journal : Journal) → IsLawful journal
        → IsLawful (journal ++ (lines_given answered).events)) }
{
    let mut replies = List::new(alloc);
    replies.push(Reply::Refused(Refusal::NoRight))?;
    Ok(LinesAnswered {
        replies,
        moment,
        placed: List::new(alloc),
    })
}

/// The machine's answers to a batch of lines.
pub(crate) fn answer_batch(
    alloc: Global,
    books: &DeskBooks,
    moment: Moment,
    caller: Caller,
    lines: &[Asked],
) -> Result<LinesAnswered, NoMemory>
    requires books { AreBooksOf books.now.book.journal books.now }
    requires moment { last_moment books.now.book.journal ≤ moment }
    requires caller { IsCaller books.now.book.journal caller }
    requires lines { all_lines lines.now ≡ true }
    ensures answer { IfOk result (λ answered. batch_given (batch_answer
        (own_at books.now.book.journal moment caller) (Ok lines.now)) ≡ lines_given answered) }
    ensures lawful { IfOk result (λ answered.
        IsLawful (books.now.book.journal ++ (lines_given answered).events)) }
{
    match caller {
        Caller::Dealer(dealer) => {
            let book = books.book.orders();
            answer_lines(alloc, book, &books.prices, moment, dealer, lines)
        }
        Caller::Operator => refused_whole(alloc, moment),
        Caller::Household(_) => refused_whole(alloc, moment),
        Caller::Stranger => refused_whole(alloc, moment),
    }
}

// The row of the order of a line.
fn row_of_line(alloc: Global, moment: Moment, placed: &Placed) -> Result<Bytes, NoMemory>
    ensures row { IfOk result (λ row. row ≡ event_row (line_event moment placed.now)) }
    ensures in_form { IfOk result (λ row. InForm (line_event moment placed.now)) }
{
    let event = Event::new(moment, EventKind::Order(*placed));
    Ok(Bytes::from_vec(encode(alloc, &event)?))
}

/// The rows of the orders of lines, as what the keeper is to append in one commit.
pub(crate) fn batch_of_lines(
    alloc: Global,
    moment: Moment,
    placed: &[Placed],
) -> Result<Batch, NoMemory>
    ensures rows { IfOk result (λ batch. batch.rows ≡ rows_of (line_events moment placed.now)) }
    ensures puts { IfOk result (λ batch. batch.puts ≡ []) }
    ensures removes { IfOk result (λ batch. batch.removes ≡ []) }
    ensures in_form { IfOk result (λ batch. All InForm (line_events moment placed.now)) }
{
    let mut batch = Batch::new(alloc);
    for order in placed {
        let row = row_of_line(alloc, moment, order)?;
        batch.rows.push(row)?;
    }
    Ok(batch)
}

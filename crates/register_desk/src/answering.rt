//! The answer to a request.
ghost use Rattle.std.specs.Prelude.{◌≡◌, ◌≤◌, IfOk, None, is_some, slice_get, true, ℕ};
ghost use Rattle.agent_events.specs.declared.verdict.Caller.{Caller as AnyCaller};
ghost use Rattle.register_desk.specs.Answered.{IsAnswer, IsCaller, IsReadyToNote, answer_given};
ghost use Rattle.register_desk.specs.Steps.{AreStepsOf};
ghost use Rattle.desk_books.specs.BooksOfJournals.{AreBooksOf, ShowTheSame};
ghost use Rattle.register_desk.specs.Replies.{IsLook};
ghost use Rattle.register_laws.specs.Lawful.{own_at};
ghost use Rattle.register_machine.specs.journal.Journals.{last_moment};
ghost use Rattle.register_machine.specs.run.Answers.{query_reply, repeat_answer, says};
ghost use Rattle.register_machine.specs.run.Verdicts.{verdict};

use crate::events::repeat_reply;
use crate::fresh::answer_fresh;
use crate::looks::look_reply;
use crate::ready_change::ReadyChange;
use agent_events::{Caller, Reply, Request, Verdict};
use desk_books::DeskBooks;
use household_fold::Steps;
use money_units::{Moment, NoMemory};
use order_intake::admit;
use std::alloc::Global;
use std::sync::ledger::Ledger as StepLedger;

/// What is answered: the reply, and the event that is to be noted, if there is one, with all that it changes.
#[derive(Drop)]
pub struct Answered {
    pub reply: Reply,
    pub change: Option<ReadyChange>,
}

/// A reply, with which nothing is noted.
pub(crate) fn reply_alone(reply: Reply) -> Answered
    ensures answer { answer_given result ≡ says reply }
    ensures nothing { result.change ≡ None }
{
    Answered {
        reply,
        change: None,
    }
}

/// The verdict on a request behind the journal, but for the last rule.
fn verdict_on(
    alloc: Global,
    books: &DeskBooks,
    moment: Moment,
    caller: Caller,
    request: &Request,
) -> Result<Verdict, NoMemory>
    requires books { AreBooksOf books.now.book.journal books.now }
    ensures { IfOk result (λ said. said
        ≡ verdict (own_at books.now.book.journal moment caller) request.now) }
{
    let orders = books.book.orders();
    admit(orders, alloc, &books.prices, caller, request, moment)
}

/// The first reply again, to the event at this place.
fn answer_again(alloc: Global, books: &DeskBooks, place: u64) -> Result<Answered, NoMemory>
    requires books { AreBooksOf books.now.book.journal books.now }
    requires there { is_some (slice_get books.now.book.journal place) ≡ true }
    ensures answer { IfOk result (λ answered. answer_given answered
        ≡ repeat_answer books.now.book.journal place) }
    ensures nothing { IfOk result (λ answered. answered.change ≡ None) }
{
    let reply = repeat_reply(alloc, books, place)?;
    Ok(reply_alone(reply))
}

/// What a look that breaks no rule shows.
fn answer_look(alloc: Global, books: &DeskBooks, request: &Request) -> Result<Answered, NoMemory>
    requires books { AreBooksOf books.now.book.journal books.now }
    requires look { (now : ℕ) × (caller : AnyCaller)
        × IsLook books.now.book.journal now caller request.now }
    ensures answer { IfOk result (λ answered. (now : ℕ) (caller : AnyCaller) → answer_given answered
        ≡ says (query_reply (own_at books.now.book.journal now caller) request.now)) }
    ensures nothing { IfOk result (λ answered. answered.change ≡ None) }
{
    let reply = look_reply(alloc, books, request)?;
    Ok(reply_alone(reply))
}

/// The machine's answer to a request by itself, at a moment that isn't before the last one, by a caller of the journal. The books
/// show what they showed before, after `NoMemory` too; the event of the answer is ready to be noted in them.
///
/// A new sheet takes one step for each household that it moves, a new correction at most those of the households that it can
/// reach, and any other request none.
pub fn answer_request<L: StepLedger>(
    alloc: Global,
    books: &mut DeskBooks,
    moment: Moment,
    caller: Caller,
    request: &Request,
    steps: &mut Steps<L>,
) -> Result<Answered, NoMemory>
    requires books { AreBooksOf books.old.book.journal books.old }
    requires moment { last_moment books.old.book.journal ≤ moment }
    requires caller { IsCaller books.old.book.journal caller }
    ensures same { ShowTheSame books.old books.new }
    ensures journal { books.new.book.journal ≡ books.old.book.journal }
    ensures answer { IfOk result (IsAnswer books.new.book.journal moment caller request.now) }
    ensures ready { IfOk result (λ answered. IsReadyToNote books.new answered.change) }
    ensures steps { IfOk result (λ answered. AreStepsOf books.old.book.journal
        (verdict (own_at books.old.book.journal moment caller) request.now)
        answered.change steps.old steps.new) }
{
    let said = verdict_on(alloc, books, moment, caller, request)?;
    match said {
        Verdict::Refused(refusal) => Ok(reply_alone(Reply::Refused(refusal))),
        Verdict::Again(place) => answer_again(alloc, books, place),
        Verdict::Query => answer_look(alloc, books, request),
        Verdict::Fresh(event) => answer_fresh(alloc, books, event, steps),
    }
}

//! The desk.
ghost use Rattle.std.specs.Prelude.{◌≡◌, ◌≢◌, ◌⊎◌, ◌≤◌, ◌++◌, [], Contains, IfOk, OnOk, OnErr, Ok, IsTrue, length, ℕ};
ghost use Rattle.agent_keeper.specs.Calls.{Counts, GoesOn};
ghost use Rattle.agent_keeper.specs.Content.{Content, after};
ghost use Rattle.register_desk.specs.Answered.{IsCaller, events_of};
ghost use Rattle.register_desk.specs.Steps.{AreStepsOf};
ghost use Rattle.register_desk.specs.PreparedAnswers.{IsPreparedAt};
ghost use Rattle.register_desk.specs.Rows.{TellsRowsOf, rows_of};
ghost use Rattle.register_laws.specs.Lawful.{book_behind, own_at};
ghost use Rattle.register_machine.specs.journal.Journals.{last_moment};
ghost use Rattle.register_machine.specs.journal.Lawful.{IsLawful};
ghost use Rattle.register_machine.specs.pricing.CorrectedOrders.{orders_of};
ghost use Rattle.register_machine.specs.queries.Trace.{trace_of_row};
ghost use Rattle.register_machine.specs.rules.Callers.{caller_of};
ghost use Rattle.register_machine.specs.run.Answers.{answer};
ghost use Rattle.register_machine.specs.run.Verdicts.{verdict};

use crate::answering::answer_request;
use crate::faults::LedgerFault;
use crate::looks::order_state;
use crate::prepared::{Prepared, batch_of, give_up_answer, give_up_change, give_up_reply};
use agent_events::{Caller, OrderRow, OrderState, Request};
use agent_keeper::{KeepFault, Keeper};
use desk_books::DeskBooks;
use household_fold::Steps;
use money_units::{Moment, NoMemory};
use std::alloc::Global;
use std::marker::Model;
use std::sync::ledger::Ledger as StepLedger;

/// The register and order desk of one journal. Contracts see its books.
#[derive(Drop)]
pub struct Desk {
    pub(crate) alloc: Global,
    pub(crate) books: DeskBooks,
}

impl Model for Desk {
    ghost use Rattle.desk_books.specs.declared.books.DeskBooks.{DeskBooks as Books};
    ghost use Rattle.register_desk.specs.Rows.{IsDesk};

    ghost Value = { Books };

    ghost view = { λ desk. desk.books };

    ghost invariant = { λ desk. IsDesk desk.books };
}

impl Desk {
    /// Prepares the answer to a request. The journal stays as it is, and no call of the keeper is made.
    ///
    /// The answer is the register machine's, so the laws of `register_laws` speak of it: a refusal names the first rule that is
    /// broken (`requests_are_refused_by_the_first_rule_broken`), a request that breaks none brings its event
    /// (`requests_that_break_no_rule_bring_their_event`), a known one gets its first reply again
    /// (`known_requests_get_their_first_reply`), and a household sees its own view of the journal (`households_are_isolated`).
    pub fn prepare<K: Keeper, L: StepLedger>(
        &mut self,
        keeper: &mut K,
        moment: Moment,
        caller: Caller,
        request: &Request,
        steps: &mut Steps<L>,
    ) -> Result<Prepared, LedgerFault>
        requires attached { IsTrue (K.is_attached keeper.old) }
        requires moment { last_moment self.old.book.journal ≤ moment }
        requires caller { IsCaller self.old.book.journal caller }
        requires told { TellsRowsOf (K.tells keeper.old) self.old.book.journal }
        ensures journal { self.new.book.journal ≡ self.old.book.journal }
        ensures keeper { keeper.new ≡ keeper.old }
        ensures answer { IfOk result (λ prepared.
            answer (own_at self.old.book.journal moment caller) request.now
            ≡ record { reply = prepared.reply; events = events_of prepared.change }) }
        ensures prepared { IfOk result (IsPreparedAt self.new) }

        // A new sheet takes one step for each household that it moves, a new correction those of the households that it can reach,
        // and any other request none.
        ensures steps { IfOk result (λ prepared. AreStepsOf self.old.book.journal
            (verdict (own_at self.old.book.journal moment caller) request.now)
            prepared.change steps.old steps.new) }
    {
        let answered = answer_request(self.alloc, &mut self.books, moment, caller, request, steps)?;
        let batch = match batch_of(self.alloc, &answered.change) {
            Ok(batch) => batch,
            Err(NoMemory) => {
                give_up_answer(answered);
                return Err(LedgerFault::NoMemory);
            }
        };
        Ok(Prepared {
            reply: answered.reply,
            base: self.books.book.len(),
            batch,
            change: answered.change,
        })
    }

    /// Makes the events of a prepared answer part of the store and then of the desk, which takes no memory for it; without events
    /// no call is made. After a fault both are as before.
    pub fn commit<K: Keeper>(&mut self, keeper: &mut K, prepared: Prepared) -> Result<(), KeepFault>
        requires attached { IsTrue (K.is_attached keeper.old) }
        requires prepared { IsPreparedAt self.old prepared }
        requires told { TellsRowsOf (K.tells keeper.old) self.old.book.journal }
        ensures ok { OnOk result (self.new.book.journal
            ≡ self.old.book.journal ++ events_of prepared.change) }
        ensures err { OnErr result (self.new.book.journal ≡ self.old.book.journal) }
        ensures told { TellsRowsOf (K.tells keeper.new) self.new.book.journal }
        ensures speaks { OnOk result (K.is_honest keeper.new → (before : Content)
            → K.tells keeper.old before → K.tells keeper.new (after prepared.batch before)) }

        // A stop leaves what it might have left before, or the rows with the events; after Ok with events these alone.
        ensures leaves { K.is_honest keeper.new → (left : Content) → K.may_leave keeper.new left
            → K.may_leave keeper.old left
            ⊎ (left.rows ≡ rows_of (self.old.book.journal ++ events_of prepared.change)) }
        ensures stops { OnOk result (events_of prepared.change ≢ [] → K.is_honest keeper.new
            → (left : Content) → K.may_leave keeper.new left → K.tells keeper.new left) }
        ensures was_honest { K.is_honest keeper.new → K.is_honest keeper.old }

        // Without events there is no call, so no fault.
        ensures silent { events_of prepared.change ≡ [] → keeper.new ≡ keeper.old }
        ensures no_events { events_of prepared.change ≡ [] → result ≡ Ok tt }
        ensures attached { IsTrue (K.is_attached keeper.new) }
        ensures counted { Counts (K.faults keeper.old) (K.faults keeper.new) result }
        ensures goes_on { GoesOn K.moment K.gave keeper.old keeper.new }
    {
        let Prepared {
            reply,
            base,
            batch,
            change,
        } = prepared;
        give_up_reply(reply);
        let Some(change) = change else {
            return Ok(());
        };
        if let Err(fault) = keeper.commit(base, &batch) {
            give_up_change(change);
            return Err(fault);
        }
        self.books.apply(change.into_change());
        Ok(())
    }

    /// Who calls, as the key tells.
    pub fn caller_of(&self, key: &[u8], operator: &[u8]) -> Caller
        ensures caller { result ≡ caller_of self.now.book.journal operator.now key.now }
        ensures known { IsCaller self.now.book.journal result }
    {
        self.books.book.caller_of(key, operator)
    }

    /// Gives the desk up, whose journal lies in the store.
    pub fn close(self) {}

    /// The journal is lawful.
    pub fn journal_is_lawful(&self)
        ensures { IsLawful self.now.book.journal }
    {
        let _ = &self.books;
    }

    /// The number of events.
    pub fn len(&self) -> u64
        ensures { result ≡ length self.now.book.journal }
    {
        self.books.book.len()
    }

    /// The moment of the last event, the first moment of all where there is none.
    pub fn last_moment(&self) -> Moment
        ensures { result ≡ last_moment self.now.book.journal }
    {
        self.books.book.last_moment()
    }

    /// The number of published sheets.
    pub fn sheets(&self) -> usize
        ensures { result ≡ length (book_behind self.now.book.journal).table.sheets }
    {
        self.books.prices.sheets().len()
    }
    /// All orders as they are corrected, in the order of their first events.
    pub fn orders(&self) -> &[OrderRow]
        ensures { result.now ≡ orders_of self.now.book.journal }
    {
        self.books.book.orders().orders()
    }

    /// The state of one of these orders, as its trace shows it.
    pub fn order_state(&self, row: &OrderRow) -> OrderState
        requires { Contains (orders_of self.now.book.journal) row.now }
        ensures { result ≡ (trace_of_row (book_behind self.now.book.journal) row.now).state }
    {
        order_state(&self.books, row)
    }
}

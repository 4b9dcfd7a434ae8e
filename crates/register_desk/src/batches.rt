//! The desk answers a batch of a dealer's lines as one request, and commits all that it brings together.
ghost use Rattle.std.specs.Prelude.{◌≡◌, ◌≢◌, ◌⊎◌, ◌≤◌, ◌++◌, [], IfOk, OnOk, OnErr, Ok, IsTrue, true};
ghost use Rattle.agent_keeper.specs.Calls.{Counts, GoesOn};
ghost use Rattle.agent_keeper.specs.Content.{Content, after};
ghost use Rattle.dealer_lines.specs.Lines.{all_lines};
ghost use Rattle.register_desk.specs.Answered.{IsCaller};
ghost use Rattle.register_desk.specs.PreparedBatches.{IsBatchPreparedAt, batch_given, batch_prepared, events_of_batch};
ghost use Rattle.register_desk.specs.Rows.{TellsRowsOf, rows_of};
ghost use Rattle.register_laws.specs.Lawful.{own_at};
ghost use Rattle.register_machine.specs.journal.Journals.{last_moment};
ghost use Rattle.register_machine.specs.run.Batches.{batch_answer};

use crate::desk::Desk;
use crate::faults::LedgerFault;
use crate::noted_lines::{note_lines, reserve_lines};
use crate::prepared_batch::{PreparedBatch, answer_batch, batch_of_lines};
use agent_events::{Asked, Caller};
use agent_keeper::{KeepFault, Keeper};
use money_units::Moment;

impl Desk {
    /// Prepares the answers to a batch of lines, each behind those before it. The journal stays as it is, and no call of the keeper
    /// is made. A caller who is no dealer gets one reply, that it has no right.
    pub fn prepare_batch<K: Keeper>(
        &mut self,
        keeper: &mut K,
        moment: Moment,
        caller: Caller,
        lines: &[Asked],
    ) -> Result<PreparedBatch, LedgerFault>
        requires attached { IsTrue (K.is_attached keeper.old) }
        requires moment { last_moment self.old.book.journal ≤ moment }
        requires caller { IsCaller self.old.book.journal caller }
        requires lines { all_lines lines.now ≡ true }
        requires told { TellsRowsOf (K.tells keeper.old) self.old.book.journal }
        ensures journal { self.new.book.journal ≡ self.old.book.journal }
        ensures keeper { keeper.new ≡ keeper.old }
        ensures answer { IfOk result (λ prepared. batch_given (batch_answer
            (own_at self.old.book.journal moment caller) (Ok lines.now))
            ≡ batch_prepared prepared) }
        ensures prepared { IfOk result (IsBatchPreparedAt self.new) }
    {
        let answered = answer_batch(self.alloc, &self.books, moment, caller, lines)?;
        let batch = batch_of_lines(self.alloc, answered.moment, answered.placed.as_slice())?;
        reserve_lines(self.alloc, &mut self.books, answered.placed.as_slice())?;
        Ok(PreparedBatch {
            answered,
            base: self.books.book.len(),
            batch,
        })
    }

    /// Makes the events of a prepared batch part of the store, in one commit, and then of the desk, which takes no memory for it;
    /// without events no call is made. After a fault both are as before.
    pub fn commit_batch<K: Keeper>(
        &mut self,
        keeper: &mut K,
        prepared: PreparedBatch,
    ) -> Result<(), KeepFault>
        requires attached { IsTrue (K.is_attached keeper.old) }
        requires prepared { IsBatchPreparedAt self.old prepared }
        requires told { TellsRowsOf (K.tells keeper.old) self.old.book.journal }
        ensures ok { OnOk result (self.new.book.journal
            ≡ self.old.book.journal ++ events_of_batch prepared) }
        ensures err { OnErr result (self.new.book.journal ≡ self.old.book.journal) }
        ensures told { TellsRowsOf (K.tells keeper.new) self.new.book.journal }
        ensures speaks { OnOk result (K.is_honest keeper.new → (before : Content)
            → K.tells keeper.old before → K.tells keeper.new (after prepared.batch before)) }

        // A stop leaves what it might have left before, or the rows with all the events; after Ok with events these alone.
        ensures leaves { K.is_honest keeper.new → (left : Content) → K.may_leave keeper.new left
            → K.may_leave keeper.old left
            ⊎ (left.rows ≡ rows_of (self.old.book.journal ++ events_of_batch prepared)) }
        ensures stops { OnOk result (events_of_batch prepared ≢ [] → K.is_honest keeper.new
            → (left : Content) → K.may_leave keeper.new left → K.tells keeper.new left) }
        ensures was_honest { K.is_honest keeper.new → K.is_honest keeper.old }

        // Without events there is no call, so no fault.
        ensures silent { events_of_batch prepared ≡ [] → keeper.new ≡ keeper.old }
        ensures no_events { events_of_batch prepared ≡ [] → result ≡ Ok tt }
        ensures attached { IsTrue (K.is_attached keeper.new) }
        ensures counted { Counts (K.faults keeper.old) (K.faults keeper.new) result }
        ensures goes_on { GoesOn K.moment K.gave keeper.old keeper.new }
    {
        let PreparedBatch {
            answered,
            base,
            batch,
        } = prepared;
        if answered.placed.len() == 0 {
            return Ok(());
        }
        keeper.commit(base, &batch)?;
        note_lines(&mut self.books, answered.moment, answered.placed.as_slice());
        Ok(())
    }
}

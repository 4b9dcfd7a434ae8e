//! Opens a store.
ghost use Rattle.std.specs.Prelude.{◌≡◌, ◌≢◌, ◌≤◌, ◌<◌, ◌+◌, All, Err, IfOk, IsTrue, OnOk, ℕ};
ghost use Rattle.agent_keeper.specs.Calls.{GoesOn, OnlyReads, Rose};
ghost use Rattle.agent_keeper.specs.Content.{Content};
ghost use Rattle.event_rows.specs.InForm.{InForm};
ghost use Rattle.register_desk.specs.Opening.{AreAllGiven, IsGivenBadAt};
ghost use Rattle.register_desk.specs.OpeningBounds.{TakesUpToBad, opening_bound};
ghost use Rattle.register_desk.specs.Rows.{IsDamagedAt, TellsRowsOf, rows_of};
ghost use Rattle.register_desk.specs.declared.faults.StartFault.{StartFault as Fault};
ghost use Rattle.register_machine.specs.journal.Journals.{Journal};
ghost use Rattle.register_machine.specs.journal.Lawful.{IsLawful};

use crate::desk::Desk;
use crate::faults::StartFault;
use crate::laws::lawful_rows_are_not_damaged;
use crate::stored::open_rows;
use agent_keeper::Keeper;
use desk_books::DeskBooks;
use household_fold::Steps;
use std::alloc::Global;
use std::sync::ledger::Ledger as StepLedger;

impl Desk {
    /// Opens the store of a keeper: the desk of the journal whose rows it keeps. Each event is asked again behind those before it, which
    /// takes at most as many steps as the opening bound of the journal says.
    pub fn start<K: Keeper, L: StepLedger>(
        alloc: Global,
        keeper: &mut K,
        steps: &mut Steps<L>,
    ) -> Result<Desk, StartFault>
        requires { IsTrue (K.is_attached keeper.old) }
        ensures opened { IfOk result (λ desk. TellsRowsOf (K.tells keeper.new) desk.book.journal) }
        ensures damaged { (place : ℕ) → result ≡ Err (Fault.Damaged place) → (kept : Content)
            → K.tells keeper.new kept → IsDamagedAt place kept.rows }

        // So the rows of a lawful journal are never damaged.
        ensures sound { (journal : Journal) → IsLawful journal → All InForm journal
            → (kept : Content) → K.tells keeper.new kept → kept.rows ≡ rows_of journal
            → (place : ℕ) → result ≢ Err (Fault.Damaged place) }

        // Whatever the keeper tells, what it gave in this call is the cause of the answer.
        ensures given { IfOk result (λ desk. AreAllGiven K.moment K.gave keeper.old keeper.new
            (rows_of desk.book.journal)) }
        ensures given_bad { (place : ℕ) → result ≡ Err (Fault.Damaged place)
            → IsGivenBadAt K.moment K.gave keeper.old keeper.new place }
        ensures reads { OnlyReads K.tells K.may_leave K.is_honest keeper.old keeper.new }
        ensures speaks { OnOk result (K.is_honest keeper.new → (kept : Content)
            → K.tells keeper.old kept → K.tells keeper.new kept) }
        ensures attached { IsTrue (K.is_attached keeper.new) }
        ensures goes_on { GoesOn K.moment K.gave keeper.old keeper.new }
        ensures fault { result ≡ Err Fault.Keeper
            → Rose (K.faults keeper.old) (K.faults keeper.new) }
        ensures no_fault { K.faults keeper.old ≤ K.faults keeper.new }
        ensures due { K.faults keeper.old < K.faults keeper.new → result ≡ Err Fault.Keeper }

        // A sheet counts one for each household that it doesn't leave alone, a correction the sheets before it for each household
        // that it can reach, and any other event none. The first bad row counts where it is a correction's.
        ensures steps { IfOk result (λ desk. steps.new
            ≤ steps.old + opening_bound desk.book.journal) }
        ensures damaged_steps { (place : ℕ) → result ≡ Err (Fault.Damaged place)
            → (kept : Content) → K.tells keeper.new kept
            → TakesUpToBad place kept.rows steps.old steps.new }
    {
        lawful_rows_are_not_damaged();
        let count = keeper.len()?;
        let mut books = DeskBooks::new(alloc)?;
        open_rows(alloc, keeper, &mut books, count, steps)?;
        Ok(Desk { alloc, books })
    }
}

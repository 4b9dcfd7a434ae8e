//! The command `apply`: it opens the store, reads the script, and answers each of its items with one line.
ghost use Rattle.std.specs.Prelude.{◌≡◌, ◌≢◌, ◌==◌, ◌<◌, ◌≤◌, ◌⊎◌, ◌++◌, Some, [], ◌∷◌, ℕ, length, IfSome, IsTrue};
ghost use Rattle.std.specs.List.{list_any};
ghost use Rattle.agent_edge.specs.Counts.{Rose};
ghost use Rattle.agent_keeper.specs.Calls.{Rose as KeeperRose};
ghost use Rattle.agent_keeper.specs.Content.{Content};
ghost use Rattle.agent_run.specs.Runs.{AreEndedSaying, EndsWithLine, GrowLawfully, IsCut, IsDone, IsStopped, IsUntouched, MaySayLine, SaysLine, TellSame, damaged_line, sink_at, status_line, status_of};
ghost use Rattle.agent_run.specs.declared.applying.TheConstants.{MAX_SCRIPT};
ghost use Rattle.script_answers.specs.Runs.{AreAnswered, IsCutShort, OfFront};
ghost use Rattle.script_answers.specs.declared.answering.AnswerFault.TheVariants as Fault;
ghost use Rattle.register_desk.specs.Rows.{IsDamagedAt, TellsRowsOf, rows_of};
ghost use Rattle.register_machine.specs.journal.Journals.{Journal};
ghost use Rattle.register_machine.specs.journal.Lawful.{IsLawful};
ghost use Rattle.register_machine.specs.run.Scripts.{script_items};

use crate::ends::{Status, damaged, end, keeper_fault, no_memory};
use crate::opening::open;
use agent_edge::{ReadFault, Sink, Source, read_up_to};
use agent_keeper::Keeper;
use household_fold::Steps;
use register_desk::{Desk, StartFault};
use script_answers::{AnswerFault, answer_script};
use std::alloc::Global;
use std::sync::ledger::Ledger as StepLedger;

/// The most bytes of a script: 16 MiB.
pub const MAX_SCRIPT: usize = 16_777_216;

// Ends where the answers of a script ended early; a line that a write cut short is the last.
fn ended<O: Sink>(fault: AnswerFault, out: &mut O) -> Status
    ensures status { result.0 ≡ status_of fault }
    ensures line { EndsWithLine fault (sink_at (O.contents out.old) (O.faults out.old))
        (sink_at (O.contents out.new) (O.faults out.new)) }
    ensures never_falls { O.faults out.old ≤ O.faults out.new }
    ensures silent { fault ≡ Fault.Write → O.faults out.new ≡ O.faults out.old }
{
    match fault {
        AnswerFault::Write => Status(4),
        AnswerFault::Keeper => keeper_fault(out),
        AnswerFault::NoMemory => no_memory(out),
    }
}

// Answers a script that was read to its end, behind the journal of the desk.
fn answered<K: Keeper, O: Sink, L: StepLedger>(
    alloc: Global,
    operator: &[u8],
    mut desk: Desk,
    keeper: &mut K,
    script: &[u8],
    out: &mut O,
    steps: &mut Steps<L>,
) -> Status
    requires attached { IsTrue (K.is_attached keeper.old) }
    requires told { TellsRowsOf (K.tells keeper.old) desk.book.journal }
    ensures known { IsTrue (list_any (λ known. result.0 == known) (0 ∷ 4 ∷ 5 ∷ 7 ∷ [])) }
    ensures done { result.0 ≡ 0
        → AreAnswered operator.now desk.book.journal (script_items script.now) (K.tells keeper.new)
        (O.contents out.old) (O.contents out.new) }
    ensures no_write_fault { result.0 ≡ 0 → O.faults out.new ≡ O.faults out.old }
    ensures write_fault { result.0 ≡ 4 → Rose (O.faults out.old) (O.faults out.new) }
    ensures cut { result.0 ≡ 4
        → IsCutShort operator.now desk.book.journal (script_items script.now) (K.tells keeper.new)
        (O.contents out.old) (O.contents out.new) }
    ensures keeper_fault { result.0 ≡ 5 → KeeperRose (K.faults keeper.old) (K.faults keeper.new) }
    ensures failed { result.0 ≡ 5
        → OfFront (λ front. AreEndedSaying (status_line 5) operator.now desk.book.journal front
        (K.tells keeper.new)
        (sink_at (O.contents out.old) (O.faults out.old))
        (sink_at (O.contents out.new) (O.faults out.new))) (script_items script.now) }
    ensures no_memory { result.0 ≡ 7
        → OfFront (λ front. AreEndedSaying (status_line 7) operator.now desk.book.journal front
        (K.tells keeper.new)
        (sink_at (O.contents out.old) (O.faults out.old))
        (sink_at (O.contents out.new) (O.faults out.new))) (script_items script.now) }
    ensures grown { (kept : Content) → K.tells keeper.new kept
        → (more : Journal) × IsLawful (desk.book.journal ++ more)
        × (kept.rows ≡ rows_of (desk.book.journal ++ more)) }
    ensures was_honest { K.is_honest keeper.new → K.is_honest keeper.old }
{
    let ends = answer_script(alloc, operator, &mut desk, keeper, script, out, steps);
    desk.journal_is_lawful();
    desk.close();
    match ends {
        Ok(()) => Status(0),
        Err(fault) => ended(fault, out),
    }
}

// Reads the script and answers it, behind the journal of the desk.
fn read_and_answer<K: Keeper, S: Source, O: Sink, L: StepLedger>(
    alloc: Global,
    operator: &[u8],
    desk: Desk,
    keeper: &mut K,
    input: &mut S,
    out: &mut O,
    steps: &mut Steps<L>,
) -> Status
    requires attached { IsTrue (K.is_attached keeper.old) }
    requires told { TellsRowsOf (K.tells keeper.old) desk.book.journal }
    ensures known { IsTrue (list_any (λ known. result.0 == known) (0 ∷ 2 ∷ 3 ∷ 4 ∷ 5 ∷ 7 ∷ [])) }
    ensures done { result.0 ≡ 0 → IfSome (S.left input.old) (λ script. (S.left input.new ≡ Some [])
        × AreAnswered operator.now desk.book.journal (script_items script) (K.tells keeper.new)
        (O.contents out.old) (O.contents out.new)) }
    ensures no_write_fault { result.0 ≡ 0 → O.faults out.new ≡ O.faults out.old }
    ensures too_long { result.0 ≡ 2
        → IfSome (S.left input.old) (λ script. MAX_SCRIPT < length script) }
    ensures not_long { IfSome (S.left input.old) (λ script. MAX_SCRIPT < length script
        → IsTrue (list_any (λ known. result.0 == known) (2 ∷ 3 ∷ 7 ∷ []))) }
    ensures read_fault { result.0 ≡ 3 → Rose (S.faults input.old) (S.faults input.new) }
    ensures no_read_fault { result.0 ≢ 3 → S.faults input.new ≡ S.faults input.old }
    ensures write_fault { result.0 ≡ 4 → Rose (O.faults out.old) (O.faults out.new) }
    ensures cut { result.0 ≡ 4 → IfSome (S.left input.old) (λ script. (S.left input.new ≡ Some [])
        × IsCutShort operator.now desk.book.journal (script_items script) (K.tells keeper.new)
        (O.contents out.old) (O.contents out.new)) }
    ensures keeper_fault { result.0 ≡ 5 → KeeperRose (K.faults keeper.old) (K.faults keeper.new) }
    ensures failed { result.0 ≡ 5 → IfSome (S.left input.old) (λ script.
        OfFront (λ front. AreEndedSaying (status_line 5) operator.now desk.book.journal front
        (K.tells keeper.new)
        (sink_at (O.contents out.old) (O.faults out.old))
        (sink_at (O.contents out.new) (O.faults out.new))) (script_items script)) }
    ensures no_memory { result.0 ≡ 7 → IfSome (S.left input.old) (λ script.
        OfFront (λ front. AreEndedSaying (status_line 7) operator.now desk.book.journal front
        (K.tells keeper.new)
        (sink_at (O.contents out.old) (O.faults out.old))
        (sink_at (O.contents out.new) (O.faults out.new))) (script_items script)) }
    ensures long_line { result.0 ≡ 2
        → SaysLine (status_line 2) (sink_at (O.contents out.old) (O.faults out.old))
        (sink_at (O.contents out.new) (O.faults out.new)) }
    ensures fault_line { result.0 ≡ 3
        → SaysLine (status_line 3) (sink_at (O.contents out.old) (O.faults out.old))
        (sink_at (O.contents out.new) (O.faults out.new)) }
    ensures unread { (result.0 ≡ 2) ⊎ (result.0 ≡ 3) → keeper.new ≡ keeper.old }
    ensures grown { (kept : Content) → K.tells keeper.new kept
        → (more : Journal) × IsLawful (desk.book.journal ++ more)
        × (kept.rows ≡ rows_of (desk.book.journal ++ more)) }
    ensures was_honest { K.is_honest keeper.new → K.is_honest keeper.old }
{
    desk.journal_is_lawful();
    match read_up_to(alloc, input, MAX_SCRIPT) {
        Ok(script) => answered(alloc, operator, desk, keeper, &script, out, steps),
        Err(ReadFault::TooLong) => {
            desk.close();
            end(out, 2, b"input too long\n")
        }
        Err(ReadFault::Fault) => {
            desk.close();
            end(out, 3, b"read fault\n")
        }
        Err(ReadFault::NoMemory) => {
            desk.close();
            no_memory(out)
        }
    }
}

/// Opens the store, then reads the script and answers it.
pub(crate) fn apply<K: Keeper, S: Source, O: Sink, L: StepLedger>(
    alloc: Global,
    store: &str,
    key: &[u8],
    keeper: &mut K,
    input: &mut S,
    out: &mut O,
    steps: &mut Steps<L>,
) -> Status
    ensures known { IsTrue
        (list_any (λ known. result.0 == known) (0 ∷ 2 ∷ 3 ∷ 4 ∷ 5 ∷ 6 ∷ 7 ∷ [])) }
    ensures done { result.0 ≡ 0
        → IsDone key.now (K.tells keeper.old) (K.tells keeper.new) (S.left input.old)
        (S.left input.new)
        (O.contents out.old) (O.contents out.new) }
    ensures no_write_fault { result.0 ≡ 0 → O.faults out.new ≡ O.faults out.old }
    ensures too_long { result.0 ≡ 2
        → IfSome (S.left input.old) (λ script. MAX_SCRIPT < length script) }
    ensures not_long { IfSome (S.left input.old) (λ script. MAX_SCRIPT < length script
        → IsTrue (list_any (λ known. result.0 == known) (2 ∷ 3 ∷ 5 ∷ 6 ∷ 7 ∷ []))) }
    ensures long_line { result.0 ≡ 2
        → IsUntouched (status_line 2) (K.tells keeper.old) (K.tells keeper.new)
        (sink_at (O.contents out.old) (O.faults out.old))
        (sink_at (O.contents out.new) (O.faults out.new)) }
    ensures read_fault { result.0 ≡ 3 → Rose (S.faults input.old) (S.faults input.new) }
    ensures no_read_fault { result.0 ≢ 3 → S.faults input.new ≡ S.faults input.old }
    ensures fault_line { result.0 ≡ 3
        → IsUntouched (status_line 3) (K.tells keeper.old) (K.tells keeper.new)
        (sink_at (O.contents out.old) (O.faults out.old))
        (sink_at (O.contents out.new) (O.faults out.new)) }
    ensures write_fault { result.0 ≡ 4 → Rose (O.faults out.old) (O.faults out.new) }
    ensures cut { result.0 ≡ 4
        → IsCut key.now (K.tells keeper.old) (K.tells keeper.new) (S.left input.old)
        (S.left input.new)
        (O.contents out.old) (O.contents out.new) }
    ensures keeper_fault { result.0 ≡ 5 → KeeperRose (K.faults keeper.old) (K.faults keeper.new) }
    ensures failed { result.0 ≡ 5
        → IsUntouched (status_line 5) (K.tells keeper.old) (K.tells keeper.new)
        (sink_at (O.contents out.old) (O.faults out.old))
        (sink_at (O.contents out.new) (O.faults out.new))
        ⊎ IsStopped (status_line 5) key.now (K.tells keeper.old) (K.tells keeper.new)
        (S.left input.old)
        (sink_at (O.contents out.old) (O.faults out.old))
        (sink_at (O.contents out.new) (O.faults out.new)) }
    ensures damaged { result.0 ≡ 6 → (place : ℕ)
        × MaySayLine (damaged_line place) (sink_at (O.contents out.old) (O.faults out.old))
        (sink_at (O.contents out.new) (O.faults out.new))
        × TellSame (K.tells keeper.old) (K.tells keeper.new)
        × ((kept : Content) → K.tells keeper.new kept → IsDamagedAt place kept.rows) }
    ensures not_damaged { IsTrue (list_any (λ known. result.0 == known) (0 ∷ 2 ∷ 3 ∷ 4 ∷ []))
        → (kept : Content) → K.tells keeper.new kept → (journal : Journal) × IsLawful journal
        × (kept.rows ≡ rows_of journal) }
    ensures no_memory { result.0 ≡ 7
        → IsUntouched (status_line 7) (K.tells keeper.old) (K.tells keeper.new)
        (sink_at (O.contents out.old) (O.faults out.old))
        (sink_at (O.contents out.new) (O.faults out.new))
        ⊎ IsStopped (status_line 7) key.now (K.tells keeper.old) (K.tells keeper.new)
        (S.left input.old)
        (sink_at (O.contents out.old) (O.faults out.old))
        (sink_at (O.contents out.new) (O.faults out.new)) }
    ensures kept { (first last : Content) → K.tells keeper.old first → K.tells keeper.new last
        → GrowLawfully first.rows last.rows }
{
    match open(alloc, store, keeper, steps) {
        Ok(desk) => read_and_answer(alloc, key, desk, keeper, input, out, steps),
        Err(StartFault::Keeper) => keeper_fault(out),
        Err(StartFault::Damaged(place)) => damaged(alloc, out, place),
        Err(StartFault::NoMemory) => no_memory(out),
    }
}

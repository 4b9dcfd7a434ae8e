//! Laws of batches: what a dealer's lines bring together leaves a lawful journal lawful.
ghost use Rattle.std.specs.Prelude.{ℕ, Bool, List, Result};
ghost use Rattle.agent_events.specs.VerbForms.{Asked};
ghost use Rattle.agent_events.specs.declared.request.Request.{Request};
ghost use Rattle.register_machine.specs.journal.Journals.{Journal};
ghost use Rattle.register_machine.specs.run.Scripts.{Run};
ghost use Rattle.register_laws.specs.LawfulBatches.{BatchLeavesLawful, BatchLeavesRunLawful};

/// Behind a lawful journal, at a moment that isn't before its last, the events of a batch leave it lawful, whoever sends it
/// and whatever its lines: only a dealer's lines are answered, each behind those before it, and none of them changes a price.
pub fn batches_leave_journals_lawful()
    ensures { (operator : List ℕ) (journal : Journal) (now : ℕ)
        (key : List ℕ) (lines : Result (List Asked) ℕ)
        → BatchLeavesLawful operator journal now key lines }
{}

/// And so behind a run that keeps the price table of its journal.
pub fn batches_leave_runs_lawful()
    ensures { (operator : List ℕ) (run : Run) (now : ℕ)
        (key : List ℕ) (lines : Result (List Asked) ℕ)
        → BatchLeavesRunLawful operator run now key lines }
{}

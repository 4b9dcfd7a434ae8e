//! Laws of a sheet over a ledger.
ghost use Rattle.std.specs.Prelude.{List, ℕ};
ghost use Rattle.agent_events.specs.Events.{Event};
ghost use Rattle.agent_events.specs.declared.request.SheetForm.{SheetForm};
ghost use Rattle.checkpoint_replay.specs.declared.part.HouseholdPart.{HouseholdPart};
ghost use Rattle.household_fold.specs.Facts.{Known};
ghost use Rattle.checkpoint_replay.specs.Replays.{NumberedOrder};
ghost use Rattle.ledger_laws.specs.SheetLedgers.{LawfulLedgerAdvances};
ghost use Rattle.register_machine.specs.journal.Journals.{Journal};

/// With the facts of the book behind a sheet that follows a lawful journal, and the sheet's orders under the numbers of their
/// households, all households of a ledger of the journal's book can step over the sheet; and where each has gone on by its step,
/// the parts are a ledger of the book behind the sheet.
pub fn sheets_advance_ledgers()
    ensures { (known : Known) (rows : List NumberedOrder) (journal : Journal) (event : Event)
        (form : SheetForm) (parts : List (ℕ × HouseholdPart))
        → LawfulLedgerAdvances known rows journal event form parts }
{}

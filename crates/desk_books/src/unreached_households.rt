//! What a sheet makes of a household that it doesn't reach.
ghost use Rattle.std.specs.Prelude.{ℕ};
ghost use Rattle.agent_events.specs.Events.{Event};
ghost use Rattle.agent_events.specs.declared.request.SheetForm.{SheetForm};
ghost use Rattle.register_machine.specs.journal.Journals.{Journal};
ghost use Rattle.desk_books.specs.SheetReach.{LeftAloneStays};

/// A household that has no order on a sheet, no payment of it and no letter that ends has the same positions and trades behind
/// it as before: the sheet costs no step of it.
pub fn households_left_alone_stay()
    ensures { (journal : Journal) (event : Event) (form : SheetForm) (household : ℕ)
        → LeftAloneStays journal event form household }
{}

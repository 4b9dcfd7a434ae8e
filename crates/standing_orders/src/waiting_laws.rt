//! What keeps the index of orders that of a journal.
ghost use Rattle.std.specs.Prelude.{List, [], ℕ};
ghost use Rattle.agent_events.specs.Events.{Event};
ghost use Rattle.agent_events.specs.declared.event.Placed.{Placed};
ghost use Rattle.agent_events.specs.declared.request.EntryForm.{EntryForm};
ghost use Rattle.agent_events.specs.declared.request.SheetForm.{SheetForm};
ghost use Rattle.register_machine.specs.journal.Journals.{Journal};
ghost use Rattle.standing_orders.specs.SettledOrders.{CorrectionLeavesSettled, LawfulLeavesSettled, SettledBeforeWaiting};
ghost use Rattle.standing_orders.specs.IndexOfJournals.{IsIndexOf, LawfulBeginsOrder, LawfulEntersOrder, LawfulLeavesIndex, LawfulReplacesOrder, LawfulSheetTakes};

/// The empty index is that of the empty journal.
pub fn empty_indexes_are_those_of_no_event()
    ensures { IsIndexOf [] [] [] }
{}

/// An event that places, enters and replaces no order, and is no sheet, leaves the index that of the journal.
pub fn other_events_leave_the_index()
    ensures { (journal : Journal) (event : Event) (owners waiting : List ℕ)
        → LawfulLeavesIndex journal event owners waiting }
{}

/// An order that is placed comes behind the others and waits.
pub fn placed_orders_wait()
    ensures { (journal : Journal) (event : Event) (placed : Placed) (household : ℕ)
        (owners waiting : List ℕ)
        → LawfulBeginsOrder journal event placed household owners waiting }
{}

/// An order that is entered comes behind the others, and waits unless it has its sheet.
pub fn entered_orders_may_wait()
    ensures { (journal : Journal) (event : Event) (form : EntryForm) (household : ℕ)
        (owners waiting : List ℕ)
        → LawfulEntersOrder journal event form household owners waiting }
{}

/// An order that is replaced waits again, unless it has its sheet.
#[tactic(auto, using(crate::proofs::IndexSteps::replaces_order))]
pub fn replaced_orders_may_wait()
    ensures { (journal : Journal) (event : Event) (form : EntryForm) (place : ℕ)
        (owners waiting : List ℕ)
        → LawfulReplacesOrder journal event form place owners waiting }
{}

/// A sheet takes what it prices.
pub fn sheets_take_what_they_price()
    ensures { (journal : Journal) (event : Event) (form : SheetForm) (owners waiting : List ℕ)
        → LawfulSheetTakes journal event form owners waiting }
{}

/// The orders before the first place that waits are settled up to the last sheet.
pub fn orders_before_the_waiting_are_settled()
    ensures { (journal : Journal) (owners waiting : List ℕ)
        → SettledBeforeWaiting journal owners waiting }
{}

/// An event that is no correction leaves settled what is settled.
pub fn events_leave_settled_orders()
    ensures { (journal : Journal) (event : Event) (household first number : ℕ)
        → LawfulLeavesSettled journal event household first number }
{}

/// A correction that replaces no order of a household leaves settled what is settled of it.
pub fn corrections_leave_settled_orders()
    ensures { (journal : Journal) (event : Event) (household first number : ℕ)
        → CorrectionLeavesSettled journal event household first number }
{}

//! Laws of kept states: which events leave them what the households came to, and where a replay goes on from one.
ghost use Rattle.std.specs.Prelude.{[], List, ℕ};
ghost use Rattle.agent_events.specs.Events.{Event};
ghost use Rattle.agent_events.specs.declared.request.FixPriceForm.{FixPriceForm};
ghost use Rattle.ledger_laws.specs.KeptOfBooks.{AreKeptOf, LastIsAsOf, LawfulLeavesKept, LeftIsAsOf, PriceLeavesKept, TradesLead};
ghost use Rattle.checkpoint_replay.specs.declared.states.KeptState.{KeptState};
ghost use Rattle.register_machine.specs.journal.Journals.{Journal};
ghost use Rattle.register_machine.specs.pricing.CorrectedBook.{Book};

/// No kept state is one of any book.
#[tactic(auto, using(crate::proofs::StatesStay::none_kept))]
pub fn no_states_are_kept_of_any_book()
    ensures { (book : Book) → AreKeptOf book [] }
{}

/// What a household came to behind all sheets is what it came to behind the last one.
#[tactic(auto, using(crate::proofs::StatesStay::last_is_as_of))]
pub fn the_last_state_is_as_of_the_last_sheet()
    ensures { (book : Book) (household : ℕ) (kept : KeptState) → LastIsAsOf book household kept }
{}

/// An event of a lawful journal that is no correction leaves each kept state what its household came to.
#[tactic(auto, using(crate::proofs::StatesStay::lawful_leaves))]
pub fn events_leave_kept_states()
    ensures { (journal : Journal) (event : Event) (rows : List (ℕ × List KeptState))
        → LawfulLeavesKept journal event rows }
{}

/// Where the part of a household is the same in two books of the same accounts and as many sheets, so is each of its kept states.
#[tactic(auto, using(crate::proofs::StatesStay::left_is_as_of))]
pub fn states_of_left_households_stay()
    ensures { (before after : Book) (household : ℕ) (kept : KeptState)
        → LeftIsAsOf before after household kept }
{}

/// A corrected price leaves each kept state behind a sheet before its own.
#[tactic(auto, using(crate::proofs::StatesStay::price_leaves))]
pub fn corrected_prices_leave_states_before()
    ensures { (journal : Journal) (event : Event) (form : FixPriceForm) (fixed household : ℕ)
        (kept : KeptState) → PriceLeavesKept journal event form fixed household kept }
{}

/// The trades behind the sheet of a kept state are the first ones of all.
#[tactic(auto, using(crate::proofs::TradesLead::trades_lead))]
pub fn trades_of_kept_states_come_first()
    ensures { (book : Book) (household : ℕ) (kept : KeptState) → TradesLead book household kept }
{}

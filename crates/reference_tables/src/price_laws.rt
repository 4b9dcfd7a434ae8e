//! What a lawful journal gives the price book.
ghost use Rattle.agent_events.specs.Events.{Event};
ghost use Rattle.reference_tables.specs.LawfulChanges.{LawfulChangesPrices};
ghost use Rattle.register_machine.specs.journal.Journals.{Journal};

/// Each event of a lawful journal can change the book of the prices before it, which then has those behind it.
pub fn lawful_events_change_prices()
    ensures { (journal : Journal) (event : Event) → LawfulChangesPrices journal event }
{}

//! Laws of the tables of journals: they go on by each event, and a step reads of them what it reads of the journal.
ghost use Rattle.std.specs.Prelude.{ℕ, []};
ghost use Rattle.agent_events.specs.Events.{Event};
ghost use Rattle.reference_tables.specs.Tables.{Tables, no_tables};
ghost use Rattle.agent_events.specs.declared.request.FixPriceForm.{FixPriceForm};
ghost use Rattle.agent_events.specs.declared.request.FixRateForm.{FixRateForm};
ghost use Rattle.agent_events.specs.declared.request.SheetForm.{SheetForm};
ghost use Rattle.reference_tables.specs.TablesOfJournals.{AreTablesOf, LawfulBringsGoodLoads, LawfulHasPatch, LawfulServes, LawfulServesFixedPrice, LawfulServesFixedRate, LawfulServesNewSheet, TablesGoOn};
ghost use Rattle.register_machine.specs.journal.Journals.{Journal};

/// The empty tables are those of the empty journal.
#[tactic(auto, using(crate::proofs::EventTables::none_yet))]
pub fn empty_tables_are_those_of_no_event()
    ensures { AreTablesOf [] no_tables }
{}

/// The tables of a journal, with the row of an event in its place, are those of the journal with the event.
pub fn tables_go_on()
    ensures { (journal : Journal) (tables : Tables) (event : Event)
        → TablesGoOn journal tables event }
{}

/// A class that a lawful journal brings has good loads, so that its terms can be prepared.
#[tactic(auto, using(crate::proofs::EventTables::brings_loads))]
pub fn events_of_lawful_journals_bring_good_loads()
    ensures { (journal : Journal) (event : Event) → LawfulBringsGoodLoads journal event }
{}

/// With the tables of a lawful journal, its corrected prices and the number of one of its sheets, the facts fit, their book
/// does what the journal's does, and the sheet at hand is the one of that number.
pub fn tables_of_lawful_journals_serve()
    ensures { (journal : Journal) (tables : Tables) (sheet : ℕ)
        → LawfulServes journal tables sheet }
{}

/// Under a corrected price on trial the facts are those of the journal with the correction.
pub fn tables_serve_a_fixed_price()
    ensures { (journal : Journal) (tables : Tables) (event : Event) (form : FixPriceForm)
        (number sheet : ℕ) → LawfulServesFixedPrice journal tables event form number sheet }
{}

/// And with a corrected rate among the others they are those of the journal with that correction.
pub fn tables_serve_a_fixed_rate()
    ensures { (journal : Journal) (tables : Tables) (event : Event) (form : FixRateForm)
        (sheet : ℕ) → LawfulServesFixedRate journal tables event form sheet }
{}

/// A corrected price that follows a lawful journal has its patch: that of the sheet which lists the class at its moment.
pub fn fixed_prices_have_a_patch()
    ensures { (journal : Journal) (event : Event) (form : FixPriceForm)
        → LawfulHasPatch journal event form }
{}

/// With a sheet published on trial the tables stay as they are, and the facts are those of the journal with the sheet.
pub fn tables_serve_a_new_sheet()
    ensures { (journal : Journal) (tables : Tables) (event : Event) (form : SheetForm)
        (sheet : ℕ) → LawfulServesNewSheet journal tables event form sheet }
{}

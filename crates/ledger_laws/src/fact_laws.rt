//! Laws of the facts by which a ledger goes on: those that serve the book of a journal.
ghost use Rattle.std.specs.Prelude.{ℕ};
ghost use Rattle.agent_events.specs.Events.{Event};
ghost use Rattle.agent_events.specs.declared.request.FixPriceForm.{FixPriceForm};
ghost use Rattle.agent_events.specs.declared.request.FixRateForm.{FixRateForm};
ghost use Rattle.agent_events.specs.declared.request.SheetForm.{SheetForm};
ghost use Rattle.household_fold.specs.Facts.{Known};
ghost use Rattle.reference_tables.specs.Tables.{Tables};
ghost use Rattle.ledger_laws.specs.TableFacts.{FactsBehindServe, LawfulPriceIsOfOneSheet, LawfulTablesServe, NewSheetServed, OrderCorrectionServed, PriceCorrectionServed, RateCorrectionServed};
ghost use Rattle.register_machine.specs.journal.Journals.{Journal};

/// Facts with the tables of a journal and the sheets of its book serve the book, lawful or not.
#[tactic(auto, using(crate::proofs::ServedBooks::facts_behind_serve))]
pub fn facts_of_journals_serve()
    ensures { (known : Known) (journal : Journal) → FactsBehindServe known journal }
{}

/// So do the tables of a lawful journal with its corrected prices.
pub fn tables_of_lawful_journals_serve_books()
    ensures { (journal : Journal) (tables : Tables) (sheet : ℕ)
        → LawfulTablesServe journal tables sheet }
{}

/// And with a sheet published on trial, the tables as they are serve the book behind the sheet.
pub fn tables_serve_the_book_behind_a_sheet()
    ensures { (journal : Journal) (tables : Tables) (event : Event) (form : SheetForm) (sheet : ℕ)
        → NewSheetServed journal tables event form sheet }
{}

/// With a correction of an order on trial the facts as they are serve the book on trial.
pub fn facts_serve_corrected_orders()
    ensures { (journal : Journal) (tables : Tables) (event : Event) (sheet : ℕ)
        → OrderCorrectionServed journal tables event sheet }
{}

/// With a corrected rate on trial they do with that rate among the others.
pub fn facts_serve_a_corrected_rate()
    ensures { (journal : Journal) (tables : Tables) (event : Event) (form : FixRateForm)
        (sheet : ℕ) → RateCorrectionServed journal tables event form sheet }
{}

/// And with a corrected price on trial they do under the patch of the sheet that it fixes.
pub fn facts_serve_a_corrected_price()
    ensures { (journal : Journal) (tables : Tables) (event : Event) (form : FixPriceForm)
        (number sheet : ℕ) → PriceCorrectionServed journal tables event form number sheet }
{}

/// In a lawful journal a price of a class at a moment is that of one sheet: a correction of it, lawful or not, is the patch of that
/// sheet.
pub fn prices_are_of_one_sheet()
    ensures { (journal : Journal) (form : FixPriceForm) (number : ℕ)
        → LawfulPriceIsOfOneSheet journal form number }
{}

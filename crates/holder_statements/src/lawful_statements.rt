//! Laws of the statements of a lawful journal, in plain words. Each function is empty: its clauses hold of the definitions.
ghost use Rattle.std.specs.Prelude.{List, ℕ};
ghost use Rattle.agent_events.specs.declared.request.StatementForm.{StatementForm};
ghost use Rattle.register_machine.specs.journal.Journals.{Journal};
ghost use Rattle.holder_statements.specs.LawfulStatements.{LawfulSheetsAreDated, LawfulTradesAreDated, LawfulViewInOrder, LawfulViewIsDated, StatedInView};

/// The sheets of a lawful journal are in the order of their moments, each dated at most three days from its moment.
#[tactic(auto, using(crate::proofs::NearSheets::sheets_dated))]
pub fn sheets_of_lawful_journals_are_dated()
    ensures { (journal : Journal) → LawfulSheetsAreDated journal }
{}

/// So are its trades.
#[tactic(auto, using(crate::proofs::LawfulTrades::trades_dated))]
pub fn trades_of_lawful_journals_are_dated()
    ensures { (journal : Journal) → LawfulTradesAreDated journal }
{}

/// And so are those of a household, as its view of the journal has them.
pub fn trades_of_households_are_dated()
    ensures { (journal : Journal) (household : ℕ) → LawfulViewIsDated journal household }
{}

/// The positions of a household, as its view of the journal has them, stand by account and then class, each once.
pub fn positions_of_households_are_in_order()
    ensures { (journal : Journal) (household : ℕ) → LawfulViewInOrder journal household }
{}

/// The statement of an account is told by its household's view of the journal.
#[tactic(auto, using(crate::proofs::LawfulTrades::stated_in_view))]
pub fn statements_are_told_by_views()
    ensures { (journal : Journal) (household : ℕ) (form : StatementForm) (name : List ℕ)
        → StatedInView journal household form name }
{}
